ghost use Rattle.rules.specs.Eliminations.{sweep};
ghost use Rattle.rules.proofs.Sweeping.{sweep_lawful};

use super::mark::mark_needed;
use super::thin_lists::thin_lists;
use super::wipe::Wipe;
use dead_code_elimination::Elimination;
use hir::{FormedStore, FunctionId};

// Keeps the rows that act, and those that write what a terminal or a kept row reads.
#[derive(Clone, Copy)]
pub struct Sweep;

impl Elimination for Sweep {
    ghost meaning = { sweep };

    ghost lawful = { sweep_lawful };

    fn eliminate(&self, store: &mut FormedStore<'_>, function: FunctionId, marks: &mut [u8]) {
        let guard = Wipe { marks };
        mark_needed(store, function, guard.marks);
        thin_lists(store, function, guard.marks);
    }
}
