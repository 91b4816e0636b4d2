ghost use Rattle.std.specs.Iterator.{IsFinite};

use super::print_error::PrintError;
use hir::{
    BasicBlock, FunctionId, HirFunction, Identifier, IdentifierId, Instruction, InstructionId,
    Name, Place, Run, Store,
};
use std::alloc::Global;
use std::io::Write;

// What has been written of a store so far.
#[derive(Drop)]
pub struct Printer<'s> {
    pub out: Vec<u8>,
    store: &'s Store<'s>,
}

// What a number leads to, or which number leads to no used row.
impl<'s> Printer<'s> {
    pub fn new(heap: Global, store: &'s Store<'s>) -> Printer<'s> {
        Printer {
            out: Vec::new(heap),
            store,
        }
    }

    pub fn function(&self, number: u32) -> Result<&'s HirFunction, PrintError> {
        let function = self.store.function(FunctionId(number));
        function.ok_or(PrintError::Function(number))
    }

    // The blocks of the function of this number.
    pub fn blocks(&self, number: u32, run: Run) -> Result<&'s [BasicBlock], PrintError> {
        let blocks = self.store.blocks_of(run);
        blocks.ok_or(PrintError::BlockOfFunction(number))
    }

    pub fn row(&self, number: u32) -> Result<&'s Instruction, PrintError> {
        let row = self.store.instruction(InstructionId(number));
        row.ok_or(PrintError::Row(number))
    }

    pub fn identifier(&self, id: IdentifierId) -> Result<&'s Identifier, PrintError> {
        let identifier = self.store.identifier(id);
        identifier.ok_or(PrintError::Identifier(id.0))
    }

    pub fn places(&self, run: Run) -> Result<&'s [Place], PrintError> {
        let places = self.store.places_of(run);
        places.ok_or(PrintError::Place(run.first))
    }

    pub fn numbers(&self, run: Run) -> Result<&'s [u32], PrintError> {
        let numbers = self.store.numbers_of(run);
        numbers.ok_or(PrintError::ListNumber(run.first))
    }

    fn bytes(&self, name: Name) -> Result<&'s [u8], PrintError> {
        let bytes = self.store.bytes_of(name);
        bytes.ok_or(PrintError::TextByte(name.start))
    }
}

// What both forms write alike.
impl<'s> Printer<'s> {
    // The bytes of a name; nothing where there is none.
    pub fn put_name(&mut self, name: Option<Name>) -> Result<(), PrintError> {
        if let Some(name) = name {
            let bytes = self.bytes(name)?;
            self.out.write_all(bytes)?;
        }
        Ok(())
    }

    // Each item by `put`, and a separator between two.
    pub fn put_list<I, F>(&mut self, items: I, separator: &str, put: F) -> Result<(), PrintError>
    where
        I: Iterator + Drop,
        I::Item: Drop,
        F: Fn(&mut Printer<'s>, I::Item) -> Result<(), PrintError>,
        requires can { I.can_next items }
        requires ends { IsFinite (I.remaining items) }
        requires puts { F.IsAlwaysCallable put }
    {
        let mut between = "";
        for item in items {
            write!(self.out, "{between}")?;
            put(self, item)?;
            between = separator;
        }
        Ok(())
    }
}
