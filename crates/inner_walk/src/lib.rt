//! Refusal 4: the functions on the walk.
#![tactic(auto)]

ghost use Rattle.std.specs.Prelude.{ℕ, ◌≤◌, length, MatchBool};
ghost use Rattle.rules.specs.Drawn.{inner};
ghost use Rattle.rules.specs.Lists.{backwards};
ghost use Rattle.hir.specs.Tables.{tables};
ghost use Rattle.hir.specs.View.{view};
ghost use Rattle.reading.specs.Stored.{rows_in};
ghost use Rattle.inner_walk.specs.Passing.{AllWalkable, AllWalked, Walkable, Walks};

use kinds::ValueKind;
use reading::{RowList, StoredFunction};

// Goes through a function and the functions that its listed FunctionExpression rows name, each block from its last row to its first, and
// marks each. False if one is marked already, is appended or lies too deep. Loops and no chains, since the marks change on
// the way; marks are bytes, since a caller lends them. Blocks are gone through by number, as the clauses speak of them.
#[cycle(walk)]
pub fn walk(function: StoredFunction<'_, '_>, depth: u32, reached: &mut [u8]) -> bool
    requires marks { function.store.now.counts.functions ≤ length reached.old }
    ensures { MatchBool result (Walks depth (view (tables function.entry.store.now)) function.entry.id.0 reached.old reached.new) (Walkable depth (view (tables function.entry.store.now)) function.entry.id.0 reached.old → ⊥) }
{
    if depth == 0 {
        return false;
    }
    let row = function.row();
    let number = function.id.0 as usize;
    if row.appended || reached[number] != 0 {
        return false;
    }
    reached[number] = 1;
    for k in 0..row.blocks.count {
        if !walk_rows(function.list(k), depth - 1, reached) {
            return false;
        }
    }
    true
}

// The functions that a list's rows name.
#[cycle(walk)]
fn walk_rows(list: RowList<'_, '_>, depth: u32, reached: &mut [u8]) -> bool
    requires marks { list.store.now.counts.functions ≤ length reached.old }
    ensures { MatchBool result (AllWalked depth (view (tables list.entry.store.now)) (inner (backwards (rows_in list.entry))) reached.old reached.new) (AllWalkable depth (view (tables list.entry.store.now)) (inner (backwards (rows_in list.entry))) reached.old → ⊥) }
{
    for number in list.numbers.iter().rev() {
        let row = list.row(*number);
        if row.has_kind(ValueKind::FunctionExpression) {
            let named = StoredFunction {
                store: list.store,
                id: row.function,
            };
            if !walk(named, depth, reached) {
                return false;
            }
        }
    }
    true
}
