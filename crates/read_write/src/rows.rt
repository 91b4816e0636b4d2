ghost use Rattle.std.specs.Prelude.{ℕ, ◌+◌, ◌^◌, ◌<◌, ◌≤◌, length, MatchBool, slice_index};
ghost use Rattle.hir.specs.Tables.{tables};
ghost use Rattle.hir.specs.View.{instruction_at, rows};
ghost use Rattle.reading.specs.Stored.{function_seen, rows_in};
ghost use Rattle.refusals.specs.Walked.{WritesSound};
ghost use Rattle.read_write.specs.Written.{RowDone, RowSound, RowsDone, RowsSound};

use super::turn::Turn;
use kinds::ValueKind;
use reading::{RowList, StoredFunction};

// No mark is above `base` at first; then those of the function are, by less than 2^32. A block's turn is by its number. Loops and no
// chains, since the marks change on the way.
pub fn function_sound(function: StoredFunction<'_, '_>, base: u64, marks: &mut [u64]) -> bool
    requires within { function.store.now.counts.identifiers ≤ length marks.old }
    requires small { base < 2 ^ 60 }
    requires low { (x : ℕ) → slice_index marks.old x ≤ base }
    ensures { MatchBool result (WritesSound (function_seen function.entry) × ((x : ℕ) → slice_index marks.new x < base + 2 ^ 32)) (WritesSound (function_seen function.entry) → ⊥) }
{
    for k in 0..function.row().blocks.count {
        let turn = Turn {
            base,
            own: base + k as u64 + 1,
        };
        if !turn.list_sound(function.list(k), marks) {
            return false;
        }
    }
    true
}

impl Turn {
    // From the last row to the first: what is written at or after a row has the mark by the time its reads are looked at.
    fn list_sound(self, list: RowList<'_, '_>, marks: &mut [u64]) -> bool
        requires within { list.store.now.counts.identifiers ≤ length marks.old }
        requires low { (x : ℕ) → slice_index marks.old x < self.own }
        ensures { MatchBool result (RowsDone self.base self.own (rows_in list.entry) marks.old marks.new) (RowsSound self.base (rows_in list.entry) marks.old → ⊥) }
    {
        for number in list.numbers.iter().rev() {
            if !self.row_sound(list, *number, marks) {
                return false;
            }
        }
        true
    }

    fn row_sound(self, list: RowList<'_, '_>, number: u32, marks: &mut [u64]) -> bool
        requires listed { number < list.store.now.counts.instructions }
        requires within { list.store.now.counts.identifiers ≤ length marks.old }
        ensures { MatchBool result (RowDone self.base self.own (instruction_at (rows (tables list.entry.store.now)) number) marks.old marks.new) (RowSound self.base self.own (instruction_at (rows (tables list.entry.store.now)) number) marks.old → ⊥) }
    {
        let row = list.row(number);
        let places = list.places(number);
        if !self.mark(row.result.identifier, marks) || !self.mark_places(places, marks) {
            return false;
        }
        row.has_kind(ValueKind::Phi) || self.reads_in_time(places, marks)
    }
}
