ghost use Rattle.std.specs.Prelude.{MatchBool};
ghost use Rattle.std.specs.List.{AllByRecursion};
ghost use Rattle.hir.specs.WellFormed.{NameFits, NameIfFits, IdentifierFits};
ghost use Rattle.refusals.specs.Form.{PlaceFormed};

use hir::{Counts, Identifier, Name, Place};
use kinds::{Effect, Role};

pub fn name_fits(name: Name, counts: Counts) -> bool
    ensures { MatchBool result (NameFits counts name) (NameFits counts name → ⊥) }
{
    name.len > 0 && name.start as u64 + name.len as u64 <= counts.text as u64
}

pub fn name_if_fits(name: Option<Name>, counts: Counts) -> bool
    ensures { MatchBool result (NameIfFits counts name) (NameIfFits counts name → ⊥) }
{
    name.is_none_or(|name| name_fits(name, counts))
}

fn identifier_formed(identifier: &Identifier, counts: Counts) -> bool
    ensures { MatchBool result (IdentifierFits counts identifier.now) (IdentifierFits counts identifier.now → ⊥) }
{
    name_if_fits(identifier.given_name(), counts)
}

// A chain's facts are lost where `&&` joins, so each table has a function of its own.
pub fn identifiers_formed(rows: &[Identifier], counts: Counts) -> bool
    ensures { MatchBool result (AllByRecursion (IdentifierFits counts) rows.now) (AllByRecursion (IdentifierFits counts) rows.now → ⊥) }
{
    rows.iter().all(|row| identifier_formed(row, counts))
}

pub fn place_formed(place: &Place, counts: Counts) -> bool
    ensures { MatchBool result (PlaceFormed counts place.now) (PlaceFormed counts place.now → ⊥) }
{
    Role::try_from(place.role).is_ok()
        && Effect::try_from(place.effect).is_ok()
        && (!place.has_role(Role::Attribute) || place.name.is_some())
        && place.identifier.0 < counts.identifiers
        && name_if_fits(place.name, counts)
}

pub fn places_formed(rows: &[Place], counts: Counts) -> bool
    ensures { MatchBool result (AllByRecursion (PlaceFormed counts) rows.now) (AllByRecursion (PlaceFormed counts) rows.now → ⊥) }
{
    rows.iter().all(|row| place_formed(row, counts))
}
