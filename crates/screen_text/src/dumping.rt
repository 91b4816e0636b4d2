use super::print_error::PrintError;
use super::printer::Printer;
use hir::{BasicBlock, Identifier, IdentifierId, IdentifierName, Instruction, Place, Run, Store};
use std::alloc::Global;
use std::io::Write;

// The canonical dump: every function with its blocks and their rows, then every identifier. It shows nothing of
// which spare row took what, so that two passes over one screen can be compared byte by byte. Functions and identifiers are shown with their
// numbers.
pub fn dump(heap: Global, store: &Store<'_>) -> Result<Vec<u8>, PrintError> {
    let mut printer = Printer::new(heap, store);
    for number in 0..store.counts.functions {
        printer.dump_function(number)?;
    }
    for number in 0..store.counts.identifiers {
        printer.dump_identifier(number)?;
    }
    Ok(printer.out)
}

impl Printer<'_> {
    fn dump_function(&mut self, number: u32) -> Result<(), PrintError> {
        let function = self.function(number)?;
        write!(self.out, "function {number} type={} tag=", function.fn_type)?;
        self.put_name(function.tag)?;
        write!(self.out, " appended={} params=[", function.appended as u8)?;
        self.dump_places(function.params)?;
        write!(self.out, "] context=[")?;
        self.dump_places(function.context)?;
        write!(self.out, "] returns=")?;
        self.dump_place(&function.returns)?;
        writeln!(self.out)?;
        for (k, block) in self.blocks(number, function.blocks)?.iter().enumerate() {
            self.dump_block(k, block)?;
        }
        Ok(())
    }

    fn dump_block(&mut self, k: usize, block: &BasicBlock) -> Result<(), PrintError> {
        write!(
            self.out,
            "block {k} kind={} terminal={} detail={} tplaces=[",
            block.kind, block.terminal, block.detail
        )?;
        self.dump_places(block.places)?;
        write!(self.out, "] preds=[")?;
        self.put_list(self.numbers(block.preds)?.iter(), " ", Printer::dump_number)?;
        writeln!(self.out, "]")?;
        for number in self.numbers(block.instructions)? {
            self.dump_row(self.row(*number)?)?;
        }
        Ok(())
    }

    // The places that the row reads come first, and then those that it writes, each in their order.
    fn dump_row(&mut self, row: &Instruction) -> Result<(), PrintError> {
        write!(
            self.out,
            "row order={} kind={} result=",
            row.order, row.kind
        )?;
        self.dump_place(&row.result)?;
        write!(self.out, " name=")?;
        self.put_name(row.name)?;
        write!(
            self.out,
            " detail={} function={} places=[",
            row.detail, row.function.0
        )?;
        let places = self.places(row.places)?;
        let reads = places.iter().filter(|place| place.is_read());
        let writes = places.iter().filter(|place| !place.is_read());
        self.put_list(reads.chain(writes), " ", Printer::dump_place)?;
        writeln!(
            self.out,
            "] span={} opening={} closing={} effects={}",
            row.span, row.opening, row.closing, row.effects
        )?;
        Ok(())
    }

    // The numbers for the sort of its name are those of a comma line.
    fn dump_identifier(&mut self, number: u32) -> Result<(), PrintError> {
        let identifier = self.identifier(IdentifierId(number))?;
        let kind = match identifier.name {
            None => 0,
            Some(IdentifierName::Named(_)) => 1,
            Some(IdentifierName::Promoted(_)) => 2,
        };
        write!(
            self.out,
            "identifier {number} {} {kind} ",
            identifier.declaration
        )?;
        self.put_name(identifier.given_name())?;
        writeln!(self.out)?;
        Ok(())
    }

    fn dump_places(&mut self, run: Run) -> Result<(), PrintError> {
        self.put_list(self.places(run)?.iter(), " ", Printer::dump_place)
    }

    fn dump_number(&mut self, number: &u32) -> Result<(), PrintError> {
        write!(self.out, "{number}")?;
        Ok(())
    }

    fn dump_place(&mut self, place: &Place) -> Result<(), PrintError> {
        write!(self.out, "{}:", place.role)?;
        self.put_name(place.name)?;
        write!(
            self.out,
            ":{}:{}:{}:{}",
            place.identifier.0, place.effect, place.reactive as u8, place.span
        )?;
        Ok(())
    }
}
