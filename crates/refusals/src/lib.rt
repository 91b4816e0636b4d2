//! Why a call is refused, and what each refusal says of a store (specs/Conditions.antt).
#![tactic(auto)]

ghost use Rattle.std.specs.Prelude.{◌≡◌};
ghost use Rattle.refusals.specs.Numbers.{number_of};
ghost use Rattle.refusals.specs.declared.Refusal.TheVariants.{Memory};

use std::alloc::AllocError;

// In the order in which they are tried; the first that holds is the answer. Want of memory is no statement about the store, so its number
// is above all others.
#[derive(Clone, Copy, PartialEq, Eq, Debug)]
pub enum Refusal {
    UsedCount = 1,
    FunctionNumber = 2,
    StoreForm = 3,
    InnerFunctions = 4,
    RowOrder = 5,
    ReadsAndWrites = 6,
    ChildNamedKey = 7,
    MarkBytes = 8,
    SpareRows = 9,
    Memory = 255,
}

impl From<Refusal> for u8 {
    ghost from_gives = { λ refusal n. n ≡ number_of refusal };

    fn from(refusal: Refusal) -> u8 {
        refusal as u8
    }
}

// By hand, so that clauses know which refusal a `?` makes.
impl From<AllocError> for Refusal {
    ghost from_gives = { λ _ r. r ≡ Memory };

    fn from(_: AllocError) -> Refusal {
        Refusal::Memory
    }
}
