ghost use Rattle.std.specs.Prelude.{MatchBool};
ghost use Rattle.std.specs.List.{AllByRecursion};
ghost use Rattle.refusals.specs.Form.{DestructureFormed, ElementFormed, InnerFormed, InstructionFormed, KindFormed, TagGiven};
ghost use Rattle.store_form.specs.Parts.{Keyed, MayFollow, ReadsOne};

use super::form::Used;
use super::places::{name_if_fits, place_formed};
use hir::{Counts, Instruction, Name, Place, used_run};
use kinds::{OBJECT_PATTERN, Role, ValueKind};

impl Used<'_> {
    pub fn instructions_formed(&self, rows: &[Instruction]) -> bool
        ensures { MatchBool result (AllByRecursion (InstructionFormed self.now.counts self.now.places.now) rows.now) (AllByRecursion (InstructionFormed self.now.counts self.now.places.now) rows.now → ⊥) }
    {
        rows.iter().all(|row| self.instruction_formed(row))
    }

    fn instruction_formed(&self, row: &Instruction) -> bool
        ensures { MatchBool result (InstructionFormed self.now.counts self.now.places.now row.now) (InstructionFormed self.now.counts self.now.places.now row.now → ⊥) }
    {
        ValueKind::try_from(row.kind).is_ok()
            && row.result.is_written()
            && place_formed(&row.result, self.counts)
            && name_if_fits(row.name, self.counts)
            && inner_formed(row, self.counts)
            && used_run(self.places, self.counts.places, row.places).is_some_and(
                |places| kind_formed(row, places),
            )
    }
}

// A function number where the kind has one, and only there.
fn inner_formed(row: &Instruction, counts: Counts) -> bool
    ensures { MatchBool result (InnerFormed counts row.now.kind row.now.function.0) (InnerFormed counts row.now.kind row.now.function.0 → ⊥) }
{
    if row.has_kind(ValueKind::ObjectMethod) || row.has_kind(ValueKind::FunctionExpression) {
        row.function.0 < counts.functions
    } else {
        row.function.0 == 0
    }
}

// The three kinds whose places and detail have a form.
fn kind_formed(row: &Instruction, places: &[Place]) -> bool
    ensures { MatchBool result (KindFormed row.now places.now) (KindFormed row.now places.now → ⊥) }
{
    match ValueKind::try_from(row.kind) {
        Ok(ValueKind::Destructure) => destructure_formed(row.detail, places),
        Ok(ValueKind::JsxExpression) => element_formed(row, places),
        Ok(ValueKind::LoadGlobal) => places.is_empty() && row.name.is_some(),
        _ => true,
    }
}

// The tag or the row's name, and places in the order of their roles. A loop, since each role is looked at beside the one before it.
fn element_formed(row: &Instruction, places: &[Place]) -> bool
    ensures { MatchBool result (ElementFormed row.now places.now) (ElementFormed row.now places.now → ⊥) }
{
    if row.detail > 1 || !tag_given(row.name, places) {
        return false;
    }
    let mut before = None;
    for place in places {
        if !may_follow(before, place.role, row.detail) {
            return false;
        }
        before = Some(place.role);
    }
    true
}

fn tag_given(name: Option<Name>, places: &[Place]) -> bool
    ensures { MatchBool result (TagGiven name places.now) (TagGiven name places.now → ⊥) }
{
    name.is_some()
        || places
            .first()
            .is_some_and(|place| place.has_role(Role::Tag))
}

// A tag only at the start, then attributes and spreads, then children, and these only with a child list. By the numbers of roles, of which
// the one before may be none; a detail is a number of the host's, here of a child list or none.
fn may_follow(before: Option<u8>, role: u8, detail: u64) -> bool
    ensures { MatchBool result (MayFollow before role detail) (MayFollow before role detail → ⊥) }
{
    match Role::try_from(role) {
        Ok(Role::Tag) => before.is_none(),
        Ok(Role::Attribute | Role::Spread) => before != Some(Role::Child as u8),
        Ok(Role::Child) => detail == 1,
        _ => false,
    }
}

// One place is read; in an object pattern each written place has a key.
fn destructure_formed(detail: u64, places: &[Place]) -> bool
    ensures { MatchBool result (DestructureFormed detail places.now) (DestructureFormed detail places.now → ⊥) }
{
    detail < 2 * OBJECT_PATTERN
        && reads_one(places)
        && (detail < OBJECT_PATTERN || each_keyed(places))
}

fn reads_one(places: &[Place]) -> bool
    ensures { MatchBool result (ReadsOne places.now) (ReadsOne places.now → ⊥) }
{
    places.iter().filter(|place| place.is_read()).count() == 1
}

fn each_keyed(places: &[Place]) -> bool
    ensures { MatchBool result (AllByRecursion Keyed places.now) (AllByRecursion Keyed places.now → ⊥) }
{
    places
        .iter()
        .all(|place| place.is_read() || place.name.is_some())
}
