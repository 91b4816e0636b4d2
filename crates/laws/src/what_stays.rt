// What an outline leaves as it was, and what its report counts.
ghost use Rattle.std.specs.Prelude.{◌≡◌, ◌+◌};
ghost use Rattle.laws.specs.Staying.{is_old, stays_whole, EveryOutlineGoesOnward, EveryStepGoesOnward, WhatIsOutsideStays};
ghost use Rattle.laws.specs.Reports.{tags_of, EveryReportCounts, EveryPropertyCounted};

// Whether a number was used before: by it then stands what stood by it, but for the lists of blocks and for names of unnamed
// identifiers.
pub fn is_old(number: u32, used: u32) -> bool
    ensures used { result ≡ is_old number used }
    ensures onward { (EveryOutlineGoesOnward) × (EveryStepGoesOnward) }
{
    number < used
}

// Whether a function is whole as it was: one that an accepted call does not walk.
pub fn stays_whole(on_walk: bool) -> bool
    ensures outside { result ≡ stays_whole on_walk }
    ensures stays { WhatIsOutsideStays }
{
    !on_walk
}

// The tags that a report tells of: those put on functions and those abandoned. The report counts functions, tags and properties
// exactly.
pub fn tags_of(functions: u32, abandoned: u32) -> u64
    ensures taken { result ≡ tags_of functions abandoned }
    ensures counts { (EveryReportCounts) × (EveryPropertyCounted) }
{
    functions as u64 + abandoned as u64
}
