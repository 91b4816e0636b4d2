ghost use Rattle.std.specs.Prelude.{◌≤◌, length};

use hir::{Counts, Place};

// What the form of a row depends on: how much of each table is used, and the used places. Its methods are one for each table, as a chain's
// facts are lost where `&&` joins; what needs the counts alone takes them alone.
#[derive(Clone, Copy)]
pub struct Used<'a> {
    pub counts: Counts,
    pub places: &'a [Place],
    pub ghost within: { counts.places ≤ length places.now },
}
