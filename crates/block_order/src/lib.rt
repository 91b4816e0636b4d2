//! Refusal 5: in each block phis come first, orders rise, and elements are at most 256.
#![tactic(auto)]

ghost use Rattle.std.specs.Prelude.{◌≡◌, ◌<◌, length, MatchBool};
ghost use Rattle.rules.specs.Lists.{select};
ghost use Rattle.rules.specs.Views.{block_rows, is_element};
ghost use Rattle.hir.specs.Tables.{tables};
ghost use Rattle.hir.specs.View.{instruction_at, rows};
ghost use Rattle.reading.specs.Stored.{function_seen, rows_in};
ghost use Rattle.refusals.specs.Walked.{ComesAfter, FunctionOrdered, Rising, RowsOrdered};

use kinds::ValueKind;
use reading::{RowList, StoredFunction};

// The most elements of a block.
const ELEMENTS_LIMIT: usize = 256;

// Blocks by number: the clauses speak of the k-th block of a function.
pub fn function_ordered(function: StoredFunction<'_, '_>) -> bool
    ensures { MatchBool result (FunctionOrdered (function_seen function.entry)) (FunctionOrdered (function_seen function.entry) → ⊥) }
{
    (0..function.row().blocks.count).all(|k| block_ordered(function, k))
}

// Its k-th block.
fn block_ordered(function: StoredFunction<'_, '_>, k: u32) -> bool
    requires { k < length (function_seen function).blocks }
    ensures { MatchBool result (RowsOrdered (block_rows (function_seen function.entry).blocks k)) (RowsOrdered (block_rows (function_seen function.entry).blocks k) → ⊥) }
{
    let list = function.list(k);
    orders_rise(list) && elements_in(list) <= ELEMENTS_LIMIT
}

fn orders_rise(list: RowList<'_, '_>) -> bool
    ensures { MatchBool result (Rising (rows_in list.entry)) (Rising (rows_in list.entry) → ⊥) }
{
    list.numbers
        .windows(2)
        .all(|pair| comes_after(list, pair[0], pair[1]))
}

fn comes_after(list: RowList<'_, '_>, before: u32, after: u32) -> bool
    requires before { before < list.store.now.counts.instructions }
    requires after { after < list.store.now.counts.instructions }
    ensures { MatchBool result (ComesAfter (instruction_at (rows (tables list.entry.store.now)) before) (instruction_at (rows (tables list.entry.store.now)) after)) (ComesAfter (instruction_at (rows (tables list.entry.store.now)) before) (instruction_at (rows (tables list.entry.store.now)) after) → ⊥) }
{
    let before = list.row(before);
    let after = list.row(after);
    before.has_kind(ValueKind::Phi) || !after.has_kind(ValueKind::Phi) && before.order < after.order
}

// How many of the rows are elements.
fn elements_in(list: RowList<'_, '_>) -> usize
    ensures { result ≡ length (select is_element (rows_in list.entry)) }
{
    list.numbers
        .iter()
        .filter(|number| list.row(**number).has_kind(ValueKind::JsxExpression))
        .count()
}
