ghost use Rattle.std.specs.Prelude.{◌≤◌, IfOk};

use super::fault::{Fault, ReadError, Wrong};
use hir::{
    BasicBlock, FunctionId, HirFunction, Identifier, IdentifierId, IdentifierName, Instruction,
    Name, Place, Run,
};
use kinds::{BlockKind, Effect, FunctionType, Role, Terminal, ValueKind};
use std::str::Split;

// The fields of one line that are still to be read, and the text that names are added to.
#[derive(Drop)]
pub struct Fields<'t, 'l> {
    parts: Split<'l, char>,
    line: usize,
    text: &'t mut Vec<u8>,
}

impl<'t, 'l> Fields<'t, 'l> {
    pub fn new(line: usize, fields: &'l str, text: &'t mut Vec<u8>) -> Fields<'t, 'l> {
        Fields {
            parts: fields.split(','),
            line,
            text,
        }
    }

    pub fn fault(&self, wrong: Wrong) -> Fault {
        Fault {
            line: self.line,
            wrong,
        }
    }

    // What stands before the first comma.
    pub fn letter(&mut self) -> &'l str {
        self.parts.next().unwrap_or("")
    }

    fn take(&mut self, field: &'static str) -> Result<&'l str, Fault> {
        let part = self.parts.next();
        part.ok_or(self.fault(Wrong::Missing(field)))
    }

    // A number in decimal, without a sign and without a leading zero.
    fn between(&mut self, field: &'static str, min: u64, max: u64) -> Result<u64, Fault>
        ensures { IfOk result (λ n. (min ≤ n) × (n ≤ max)) }
    {
        let part = self.take(field)?;
        let wrong = self.fault(Wrong::Number { field, min, max });
        if part.starts_with('+') || (part.len() > 1 && part.starts_with('0')) {
            return Err(wrong);
        }
        match part.parse::<u64>() {
            Ok(n) if min <= n && n <= max => Ok(n),
            _ => Err(wrong),
        }
    }

    // The number of a kind, from that of the first to that of the last: a message names the range.
    fn kind(&mut self, field: &'static str, first: u8, last: u8) -> Result<u8, Fault>
        ensures { IfOk result (λ n. (first ≤ n) × (n ≤ last)) }
    {
        Ok(self.between(field, first as u64, last as u64)? as u8)
    }

    fn bit(&mut self, field: &'static str) -> Result<bool, Fault> {
        Ok(self.between(field, 0, 1)? == 1)
    }

    pub fn word(&mut self, field: &'static str) -> Result<u32, Fault> {
        Ok(self.between(field, 0, u32::MAX as u64)? as u32)
    }

    fn run(&mut self, first: &'static str, count: &'static str) -> Result<Run, Fault> {
        let first = self.word(first)?;
        let count = self.word(count)?;
        Ok(Run { first, count })
    }

    // A name's bytes are added to the text; an empty field is no name.
    fn name(&mut self, field: &'static str) -> Result<Option<Name>, ReadError> {
        let part = self.take(field)?;
        if part.is_empty() {
            return Ok(None);
        }
        let (Ok(start), Ok(len)) = (u32::try_from(self.text.len()), u32::try_from(part.len()))
        else {
            return Err(self.fault(Wrong::TooMuchText(field)).into());
        };
        self.text.extend_from_slice(part.as_bytes())?;
        Ok(Some(Name { start, len }))
    }

    // 0 and no name, or 1 for Named or 2 for Promoted and the name. The numbers are the form's own: no table keeps them.
    fn identifier_name(&mut self) -> Result<Option<IdentifierName>, ReadError> {
        let kind = self.between("the kind of the identifier's name", 0, 2)?;
        let field = "the identifier's name";
        match (kind, self.name(field)?) {
            (0, None) => Ok(None),
            (1, Some(name)) => Ok(Some(IdentifierName::Named(name))),
            (2, Some(name)) => Ok(Some(IdentifierName::Promoted(name))),
            (0, Some(_)) => Err(self.fault(Wrong::NameUnexpected(field)).into()),
            _ => Err(self.fault(Wrong::NameExpected(field)).into()),
        }
    }

    pub fn identifier(&mut self) -> Result<Identifier, ReadError> {
        Ok(Identifier {
            declaration: self.word("the declaration number")?,
            name: self.identifier_name()?,
        })
    }

    pub fn place(&mut self) -> Result<Place, ReadError> {
        Ok(Place {
            role: self.kind("the place's role", Role::Read as u8, Role::Written as u8)?,
            name: self.name("the place's name")?,
            identifier: IdentifierId(self.word("the place's identifier")?),
            effect: self.kind(
                "the place's effect",
                Effect::Unknown as u8,
                Effect::Store as u8,
            )?,
            reactive: self.bit("the place's reactive bit")?,
            span: self.word("the place's span")?,
        })
    }

    pub fn instruction(&mut self) -> Result<Instruction, ReadError> {
        Ok(Instruction {
            order: self.word("the order")?,
            kind: self.kind(
                "the kind",
                ValueKind::Phi as u8,
                ValueKind::FinishMemoize as u8,
            )?,
            result: self.place()?,
            name: self.name("the row's name")?,
            detail: self.between("the detail", 0, u64::MAX)?,
            function: FunctionId(self.word("the function number")?),
            places: self.run("the first place", "the count of places")?,
            span: self.word("the span")?,
            opening: self.word("the opening number")?,
            closing: self.word("the closing number")?,
            effects: self.word("the effects number")?,
        })
    }

    pub fn block(&mut self) -> Result<BasicBlock, ReadError> {
        Ok(BasicBlock {
            kind: self.kind(
                "the block's kind",
                BlockKind::Block as u8,
                BlockKind::Catch as u8,
            )?,
            terminal: self.kind(
                "the terminal",
                Terminal::Unreachable as u8,
                Terminal::PrunedScope as u8,
            )?,
            detail: self.word("the terminal's detail")?,
            places: self.run("the first terminal place", "the count of terminal places")?,
            instructions: self.run("the first list number", "the count of rows")?,
            preds: self.run("the first predecessor", "the count of predecessors")?,
        })
    }

    pub fn function(&mut self) -> Result<HirFunction, ReadError> {
        Ok(HirFunction {
            fn_type: self.kind(
                "the function's type",
                FunctionType::Component as u8,
                FunctionType::Other as u8,
            )?,
            blocks: self.run("the first block", "the count of blocks")?,
            params: self.run("the first parameter", "the count of parameters")?,
            context: self.run("the first context place", "the count of context places")?,
            returns: self.place()?,
            tag: self.name("the tag")?,
            appended: self.bit("the appended bit")?,
        })
    }

    // Every field of the line has been read.
    pub fn end(&mut self) -> Result<(), Fault> {
        let None = self.parts.next() else {
            return Err(self.fault(Wrong::Extra));
        };
        Ok(())
    }
}
