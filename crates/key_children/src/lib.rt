//! Refusal 7: no element has a child whose identifier is named key.
#![tactic(auto)]

ghost use Rattle.std.specs.Prelude.{◌≡◌, ◌<◌, length, MatchBool};
ghost use Rattle.std.specs.List.{AllByRecursion};
ghost use Rattle.rules.specs.Names.{is_key};
ghost use Rattle.rules.specs.Views.{block_rows};
ghost use Rattle.hir.specs.Tables.{tables};
ghost use Rattle.hir.specs.View.{instruction_at, rows, view};
ghost use Rattle.reading.specs.Stored.{function_seen};
ghost use Rattle.refusals.specs.Walked.{FunctionKeyless, Keyless, name_of};

use hir::IdentifierId;
use kinds::{Role, ValueKind};
use names::is_key;
use reading::{RowList, StoredFunction};

// Blocks by number: the clauses speak of the k-th block of a function.
pub fn function_keyless(function: StoredFunction<'_, '_>) -> bool
    ensures { MatchBool result (FunctionKeyless (view (tables function.entry.store.now)) (function_seen function.entry)) (FunctionKeyless (view (tables function.entry.store.now)) (function_seen function.entry) → ⊥) }
{
    (0..function.row().blocks.count).all(|k| block_keyless(function, k))
}

// Its k-th block.
fn block_keyless(function: StoredFunction<'_, '_>, k: u32) -> bool
    requires { k < length (function_seen function).blocks }
    ensures { MatchBool result (AllByRecursion (Keyless (view (tables function.entry.store.now))) (block_rows (function_seen function.entry).blocks k)) (AllByRecursion (Keyless (view (tables function.entry.store.now))) (block_rows (function_seen function.entry).blocks k) → ⊥) }
{
    let list = function.list(k);
    list.numbers.iter().all(|number| row_keyless(list, *number))
}

fn row_keyless(list: RowList<'_, '_>, number: u32) -> bool
    requires { number < list.store.now.counts.instructions }
    ensures { MatchBool result (Keyless (view (tables list.entry.store.now)) (instruction_at (rows (tables list.entry.store.now)) number)) (Keyless (view (tables list.entry.store.now)) (instruction_at (rows (tables list.entry.store.now)) number) → ⊥) }
{
    if !list.row(number).has_kind(ValueKind::JsxExpression) {
        return true;
    }
    let places = list.places(number);
    !places.iter().any(|place| place.has_role(Role::Child) && named_key(list, place.identifier))
}

// Is the identifier named key?
#[tactic(auto, using(crate::proofs::Spelt::name_seen))]
fn named_key(list: RowList<'_, '_>, identifier: IdentifierId) -> bool
    requires { identifier.0 < list.store.now.counts.identifiers }
    ensures { result ≡ is_key (name_of (view (tables list.entry.store.now)) identifier.0) }
{
    let row = list.store.identifiers[identifier.0 as usize];
    is_key(list.store, row.given_name())
}
