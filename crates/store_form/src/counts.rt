ghost use Rattle.std.specs.Prelude.{ℕ, ◌≤◌, MatchBool};
ghost use Rattle.hir.specs.Tables.{tables};
ghost use Rattle.hir.specs.WellFormed.{Counted, Room};
ghost use Rattle.refusals.specs.Conditions.{FunctionGiven};
ghost use Rattle.refusals.specs.Form.{tag_limit};

use hir::{Counts, FunctionId, LIMITS, Store};

// No more rows are used than a table has, nor than its limit allows.
pub fn counts_fit(store: &Store<'_>) -> bool
    ensures { MatchBool result (Counted (tables store.now)) (Counted (tables store.now) → ⊥) }
{
    let counts = store.counts;
    let tables = [
        (counts.text, store.text.len(), LIMITS.text),
        (
            counts.identifiers,
            store.identifiers.len(),
            LIMITS.identifiers,
        ),
        (counts.places, store.places.len(), LIMITS.places),
        (
            counts.instructions,
            store.instructions.len(),
            LIMITS.instructions,
        ),
        (counts.numbers, store.numbers.len(), LIMITS.numbers),
        (counts.blocks, store.blocks.len(), LIMITS.blocks),
        (counts.functions, store.functions.len(), LIMITS.functions),
    ];
    tables.iter().all(|(used, rows, limit)| has_room(*used, 0, *rows, *limit as u64))
}

// There is room for so many rows more, in the table and below the limit.
pub fn has_room(used: u32, more: u64, rows: usize, limit: u64) -> bool
    ensures { MatchBool result (Room used more rows limit) (Room used more rows limit → ⊥) }
{
    (used as u64)
        .checked_add(more)
        .is_some_and(|sum| sum <= rows as u64 && sum <= limit)
}

// The function that was asked for is used, and not one that outlining added.
pub fn function_given(store: &Store<'_>, function: FunctionId) -> bool
    requires { Counted (tables store.now) }
    ensures { MatchBool result (FunctionGiven (tables store.now) function.0) (FunctionGiven (tables store.now) function.0 → ⊥) }
{
    function.0 < store.counts.functions && !store.functions[function.0 as usize].appended
}

// The tag counter and the tag mark are low enough.
pub fn tags_low(counts: Counts) -> bool
    ensures { MatchBool result ((counts.tag_counter ≤ tag_limit) × (counts.tag_mark ≤ tag_limit)) ((counts.tag_counter ≤ tag_limit) × (counts.tag_mark ≤ tag_limit) → ⊥) }
{
    counts.tag_counter <= LIMITS.tag_counter && counts.tag_mark <= LIMITS.tag_mark
}
