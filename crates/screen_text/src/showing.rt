use super::named::Named;
use super::print_error::PrintError;
use super::printer::Printer;
use hir::{BasicBlock, IdentifierId, Instruction, Place, Run, Store};
use kinds::{
    BlockKind, FunctionType, InstructionKind, OBJECT_PATTERN, ReturnVariant, Role, Terminal,
    ValueKind,
};
use std::alloc::Global;
use std::io::Write;

// The detail of a LoadGlobal of the same module.
const MODULE_LOCAL: u64 = 4;

// The detail of an element that has a list of children, even where that is empty.
const HAS_CHILDREN: u64 = 1;

// The store as a compiler engineer reads it: a head line for each function with its number, its blocks, their rows and terminals.
pub fn show(heap: Global, store: &Store<'_>) -> Result<Vec<u8>, PrintError> {
    let mut printer = Printer::new(heap, store);
    for number in 0..store.counts.functions {
        if number > 0 {
            writeln!(printer.out)?;
        }
        printer.show_function(number)?;
    }
    Ok(printer.out)
}

impl Printer<'_> {
    fn show_function(&mut self, number: u32) -> Result<(), PrintError> {
        let function = self.function(number)?;
        write!(
            self.out,
            "function {number} {}(",
            Named::<FunctionType>::of(function.fn_type.into())
        )?;
        self.show_list(function.params)?;
        write!(self.out, ")")?;
        if function.context.count > 0 {
            write!(self.out, " context(")?;
            self.show_list(function.context)?;
            write!(self.out, ")")?;
        }
        write!(self.out, " returns ")?;
        self.show_identifier(function.returns.identifier)?;
        if function.tag.is_some() {
            write!(self.out, " tag ")?;
            self.put_name(function.tag)?;
        }
        if function.appended {
            write!(self.out, " appended")?;
        }
        writeln!(self.out)?;
        self.show_blocks(number, function.blocks)
    }

    fn show_blocks(&mut self, number: u32, run: Run) -> Result<(), PrintError> {
        for (k, block) in self.blocks(number, run)?.iter().enumerate() {
            self.show_block(run.first as usize + k, block)?;
        }
        Ok(())
    }

    fn show_block(&mut self, number: usize, block: &BasicBlock) -> Result<(), PrintError> {
        let kind = Named::<BlockKind>::of(block.kind.into());
        write!(self.out, "bb{number} ({kind}):")?;
        self.show_predecessors(block.preds)?;
        writeln!(self.out)?;
        for number in self.numbers(block.instructions)? {
            self.show_row(self.row(*number)?)?;
        }
        self.show_terminal(block)
    }

    fn show_predecessors(&mut self, run: Run) -> Result<(), PrintError> {
        let numbers = self.numbers(run)?;
        if !numbers.is_empty() {
            write!(self.out, " predecessors")?;
        }
        for number in numbers {
            write!(self.out, " bb{number}")?;
        }
        Ok(())
    }

    fn show_terminal(&mut self, block: &BasicBlock) -> Result<(), PrintError> {
        let terminal = Named::<Terminal>::of(block.terminal.into());
        write!(self.out, "    {terminal}")?;
        if block.terminal == Terminal::Return as u8 {
            let variant = Named::<ReturnVariant>::of(block.detail.into());
            write!(self.out, " {variant}")?;
        } else if block.detail > 0 {
            write!(self.out, " #{}", block.detail)?;
        }
        let places = self.places(block.places)?;
        self.show_where(places, |place| place.is_read() || place.is_written())?;
        writeln!(self.out)?;
        Ok(())
    }

    fn show_row(&mut self, row: &Instruction) -> Result<(), PrintError> {
        write!(self.out, "    [{}] ", row.order)?;
        self.show_identifier(row.result.identifier)?;
        write!(self.out, " = {}", Named::<ValueKind>::of(row.kind.into()))?;
        if row.has_kind(ValueKind::JsxExpression) {
            self.show_element(row)?;
        } else {
            self.show_value(row)?;
        }
        writeln!(self.out)?;
        Ok(())
    }

    // Any row but an element: its name, detail and function number where it has them, what it reads, and what it writes.
    fn show_value(&mut self, row: &Instruction) -> Result<(), PrintError> {
        if row.name.is_some() {
            write!(self.out, " ")?;
            self.put_name(row.name)?;
        }
        self.show_detail(row)?;
        if row.has_kind(ValueKind::ObjectMethod) || row.has_kind(ValueKind::FunctionExpression) {
            write!(self.out, " function {}", row.function.0)?;
        }
        let places = self.places(row.places)?;
        self.show_where(places, Place::is_read)?;
        if places.iter().any(Place::is_written) {
            write!(self.out, " ->")?;
            self.show_where(places, Place::is_written)?;
        }
        Ok(())
    }

    // What the detail says, where it is known; else its number, unless that is 0.
    fn show_detail(&mut self, row: &Instruction) -> Result<(), PrintError> {
        if row.has_kind(ValueKind::Destructure) {
            let kind = Named::<InstructionKind>::of(row.detail % OBJECT_PATTERN);
            let pattern = if row.detail >= OBJECT_PATTERN {
                "object"
            } else {
                "array"
            };
            write!(self.out, " {kind} {pattern}")?;
        } else if row.has_kind(ValueKind::LoadGlobal) && row.detail == MODULE_LOCAL {
            write!(self.out, " (ModuleLocal)")?;
        } else if row.detail > 0 {
            write!(self.out, " #{}", row.detail)?;
        }
        Ok(())
    }

    // An element: its tag, attributes and spreads in angle brackets, and then its children.
    fn show_element(&mut self, row: &Instruction) -> Result<(), PrintError> {
        let places = self.places(row.places)?;
        write!(self.out, " <")?;
        self.put_name(row.name)?;
        for tag in places.iter().filter(|place| place.has_role(Role::Tag)) {
            self.show_identifier(tag.identifier)?;
        }
        self.show_where(places, |place| {
            place.has_role(Role::Attribute) || place.has_role(Role::Spread)
        })?;
        write!(self.out, ">")?;
        self.show_where(places, |place| place.has_role(Role::Child))?;
        if row.detail == HAS_CHILDREN && !places.iter().any(|place| place.has_role(Role::Child)) {
            write!(self.out, " ()")?;
        }
        Ok(())
    }

    // The places that pass, a space before each.
    fn show_where<F: Fn(&Place) -> bool>(
        &mut self,
        places: &[Place],
        passes: F,
    ) -> Result<(), PrintError>
        requires { F.IsAlwaysCallable passes }
    {
        for place in places {
            if passes(place) {
                write!(self.out, " ")?;
                self.show_place(place)?;
            }
        }
        Ok(())
    }

    fn show_list(&mut self, run: Run) -> Result<(), PrintError> {
        self.put_list(self.places(run)?.iter(), ", ", Printer::show_place)
    }

    // `name=` before the identifier of a named place, and three points before a spread.
    fn show_place(&mut self, place: &Place) -> Result<(), PrintError> {
        if place.has_role(Role::Spread) {
            write!(self.out, "...")?;
        }
        if place.name.is_some() {
            self.put_name(place.name)?;
            write!(self.out, "=")?;
        }
        self.show_identifier(place.identifier)
    }

    // An identifier's name, where it has one, and its number.
    fn show_identifier(&mut self, id: IdentifierId) -> Result<(), PrintError> {
        let identifier = self.identifier(id)?;
        self.put_name(identifier.given_name())?;
        write!(self.out, "${}", id.0)?;
        Ok(())
    }
}
