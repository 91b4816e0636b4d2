// How far the tag counter and the tag mark can come on a store within the limits.
ghost use Rattle.std.specs.Prelude.{◌≡◌};
ghost use Rattle.laws.specs.Ceilings.{counter_ceiling, mark_ceiling, name_counter_ceiling, NameCounterBelow, CounterBelow, MarkBelow, MarkRises};

// 1,000,000, and 1,024 tags.
pub fn counter_ceiling() -> u32
    ensures ceiling { result ≡ counter_ceiling }
    ensures holds { CounterBelow }
{
    1_001_024
}

// 1,000,000, 1,024 tags, and the names of 65,535 identifiers and 65,535 rows: seven digits.
pub fn mark_ceiling() -> u32
    ensures ceiling { result ≡ mark_ceiling }
    ensures holds { (MarkBelow) × (MarkRises) }
{
    1_132_094
}

// The counter of a group's made names: 65,535 props, each after at most 65,536 tries. It fits 32 bits.
pub fn name_counter_ceiling() -> u32
    ensures ceiling { result ≡ name_counter_ceiling }
    ensures holds { NameCounterBelow }
{
    4_294_901_761
}
