//! Reading a well-formed store: a function's blocks, their lists, a row and its places.
#![tactic(auto)]

ghost use Rattle.std.specs.Prelude.{◌≡◌, ◌<◌, map};
ghost use Rattle.std.specs.List.{AllByRecursion};
ghost use Rattle.hir.specs.Tables.{tables};
ghost use Rattle.hir.specs.View.{instruction_at, instruction_view, place_view, rows, view};
ghost use Rattle.hir.specs.WellFormed.{InstructionFits, PlaceFits, Readable};

mod stored;

use hir::{Instruction, InstructionId, Place, Store};
pub use stored::{RowList, StoredFunction};

// A row, of a store of which no more is known than that rows and places can be read.
pub fn stored_row(store: &Store<'_>, id: InstructionId) -> Instruction
    requires readable { Readable (tables store.now) }
    requires used { id.0 < store.now.counts.instructions }
    ensures seen { instruction_at (rows (tables store.now)) id.0 ≡ instruction_view (rows (tables store.now)) result }
    ensures fits { InstructionFits store.now.counts result }
{
    store.instructions[id.0 as usize]
}

// Its places.
pub fn row_places<'b>(store: &'b Store<'_>, id: InstructionId) -> &'b [Place]
    requires readable { Readable (tables store.now) }
    requires used { id.0 < store.now.counts.instructions }
    ensures seen { map (place_view (view (tables store.now)).text) result.now ≡ (instruction_at (rows (tables store.now)) id.0).places }
    ensures fit { AllByRecursion (PlaceFits store.now.counts) result.now }
{
    let run = store.instructions[id.0 as usize].places;
    let first = run.first as usize;
    &store.places[first..first + run.count as usize]
}
