ghost use Rattle.std.specs.Prelude.{◌<◌, [], ◌∷◌, length, MatchBool};
ghost use Rattle.std.specs.List.{AllByRecursion};
ghost use Rattle.hir.specs.declared.rows.Place.{Place};
ghost use Rattle.read_write.specs.Written.{Markable, Marked, read_in, Unnumbered, written_in};

use super::turn::Turn;
use hir::{IdentifierId, Place};

impl Turn {
    // Marks an identifier; false if it is marked in this function already.
    pub fn mark(self, identifier: IdentifierId, marks: &mut [u64]) -> bool
        requires { identifier.0 < length marks.old }
        ensures { MatchBool result (Marked self.base self.own self.own (identifier.0 ∷ []) marks.old marks.new) (Markable self.base (identifier.0 ∷ []) marks.old → ⊥) }
    {
        let at = identifier.0 as usize;
        if marks[at] > self.base {
            return false;
        }
        marks[at] = self.own;
        true
    }

    // The same of the written places; a loop, since the marks change on the way.
    pub fn mark_places(self, places: &[Place], marks: &mut [u64]) -> bool
        requires { AllByRecursion (λ (p : Place). p.identifier.0 < length marks.old) places.now }
        ensures { MatchBool result (Marked self.base self.own self.own (written_in places.now) marks.old marks.new) (Markable self.base (written_in places.now) marks.old → ⊥) }
    {
        for place in places {
            if place.is_written() && !self.mark(place.identifier, marks) {
                return false;
            }
        }
        true
    }

    // No place reads what has the block's mark.
    pub fn reads_in_time(self, places: &[Place], marks: &[u64]) -> bool
        ensures { MatchBool result (Unnumbered self.own (read_in places.now) marks.now) (Unnumbered self.own (read_in places.now) marks.now → ⊥) }
    {
        places.iter().all(|place| {
            !place.is_read() || marks.get(place.identifier.0 as usize) != Some(&self.own)
        })
    }
}
