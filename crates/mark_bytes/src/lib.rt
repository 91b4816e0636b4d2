//! Refusal 8: a mark byte for each row of the identifier table, all of them zero.
#![tactic(auto)]

ghost use Rattle.std.specs.Prelude.{MatchBool};
ghost use Rattle.hir.specs.Tables.{tables};
ghost use Rattle.refusals.specs.Conditions.{MarksReady};

use hir::Store;

pub fn marks_ready(store: &Store<'_>, marks: &[u8]) -> bool
    ensures { MatchBool result (MarksReady (tables store.now) marks.now) (MarksReady (tables store.now) marks.now → ⊥) }
{
    marks.len() >= store.identifiers.len() && marks.iter().all(|mark| *mark == 0)
}
