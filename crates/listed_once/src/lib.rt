//! Refusal 3, as far as rows are compared with one another: no list number stands in two runs, no block in two functions, and no row is
//! listed twice. Marks are working memory, all zero at first.
#![tactic(auto)]

ghost use Rattle.std.specs.Prelude.{ℕ, ◌≤◌, length, MatchBool};
ghost use Rattle.hir.specs.Tables.{tables};
ghost use Rattle.hir.specs.View.{rows as used_rows};
ghost use Rattle.hir.specs.WellFormed.{Counted};
ghost use Rattle.refusals.specs.Form.{RowsApart, RowsFormed};
ghost use Rattle.listed_once.specs.Marking.{NoMarks};

mod lists;
mod runs;

use hir::Store;
use lists::{lists_named, rows_once};
use runs::{functions_apart, lists_apart};

// There are marks for the list numbers, the blocks and the rows: bytes and no bools, since bytes are what callers lend.
pub fn rows_apart(store: &Store<'_>, numbers: &mut [u8], blocks: &mut [u8], rows: &mut [u8]) -> bool
    requires counted { Counted (tables store.now) }
    requires formed { RowsFormed store.now.counts (used_rows (tables store.now)) }
    requires numbers { (store.now.counts.numbers ≤ length numbers.old) × (NoMarks numbers.old) }
    requires blocks { (store.now.counts.blocks ≤ length blocks.old) × (NoMarks blocks.old) }
    requires rows { (store.now.counts.instructions ≤ length rows.old) × (NoMarks rows.old) }
    ensures { MatchBool result (RowsApart store.now.counts (used_rows (tables store.now))) (RowsApart store.now.counts (used_rows (tables store.now)) → ⊥) }
{
    let counts = store.counts;
    let used = &store.blocks[..counts.blocks as usize];
    let listed = &store.numbers[..counts.numbers as usize];
    lists_apart(used, numbers)
        && functions_apart(&store.functions[..counts.functions as usize], blocks)
        && lists_named(used, listed, counts.instructions, counts.blocks)
        && rows_once(used, listed, rows)
}
