//! A screen that owns its tables, to be lent to one call after another.
#![tactic(auto)]

ghost use Rattle.std.specs.Prelude.{◌≡◌, IfSome};
ghost use Rattle.screen.specs.Lent.{all_used, no_rows, Lent};

use hir::{BasicBlock, Counts, HirFunction, Identifier, Instruction, Place, Store};
use std::alloc::Global;

// The seven tables of one screen, every row used.
#[derive(Drop)]
pub struct Screen {
    pub text: Vec<u8>,
    pub identifiers: Vec<Identifier>,
    pub places: Vec<Place>,
    pub instructions: Vec<Instruction>,
    pub numbers: Vec<u32>,
    pub blocks: Vec<BasicBlock>,
    pub functions: Vec<HirFunction>,
}

impl Screen {
    pub fn new(heap: Global) -> Screen
        ensures { all_used result ≡ no_rows }
    {
        Screen {
            text: Vec::new(heap),
            identifiers: Vec::new(heap),
            places: Vec::new(heap),
            instructions: Vec::new(heap),
            numbers: Vec::new(heap),
            blocks: Vec::new(heap),
            functions: Vec::new(heap),
        }
    }

    // All rows used, and no tag taken; none if a table has more rows than a count can hold.
    pub fn counts(&self) -> Option<Counts>
        ensures { IfSome result (λ c. c ≡ all_used self.now) }
    {
        Some(Counts {
            text: u32::try_from(self.text.len()).ok()?,
            identifiers: u32::try_from(self.identifiers.len()).ok()?,
            places: u32::try_from(self.places.len()).ok()?,
            instructions: u32::try_from(self.instructions.len()).ok()?,
            numbers: u32::try_from(self.numbers.len()).ok()?,
            blocks: u32::try_from(self.blocks.len()).ok()?,
            functions: u32::try_from(self.functions.len()).ok()?,
            tag_counter: 0,
            tag_mark: 0,
        })
    }

    // The tables as a store for one call.
    pub fn lend(&mut self, counts: Counts) -> Store<'_>
        ensures { Lent self.old counts result }
    {
        Store {
            counts,
            text: self.text.as_mut_slice(),
            identifiers: self.identifiers.as_mut_slice(),
            places: self.places.as_mut_slice(),
            instructions: self.instructions.as_mut_slice(),
            numbers: self.numbers.as_mut_slice(),
            blocks: self.blocks.as_mut_slice(),
            functions: self.functions.as_mut_slice(),
        }
    }
}
