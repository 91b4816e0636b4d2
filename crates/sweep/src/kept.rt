// What the marks keep: the rows that act, and those that write a marked identifier.
ghost use Rattle.std.specs.Prelude.{◌≡◌, ◌<◌, ◌≤◌, length};
ghost use Rattle.rules.specs.Lists.{any};
ghost use Rattle.sweep.specs.Marks.{ids_written, is_marked, kept_by, row_kept, IdsFit};

use hir::{IdentifierId, Instruction, InstructionId, Place, Store, is_acting};
use reading::row_places;
use rules::sweep_keeps;
use thin::Keeps;

#[derive(Clone, Copy)]
pub(super) struct Marked<'m> {
    pub(super) marks: &'m [u8],
}

impl Marked<'_> {
    fn has(&self, id: IdentifierId) -> bool
        requires { id.0 < length self.now.marks.now }
        ensures { result ≡ is_marked self.now.marks.now id.0 }
    {
        self.marks[id.0 as usize] != 0
    }

    // Is a written place among these whose identifier is marked?
    fn has_written(&self, places: &[Place]) -> bool
        requires { IdsFit self.now.marks.now places.now }
        ensures { result ≡ any (is_marked self.now.marks.now) (ids_written places.now) }
    {
        places
            .iter()
            .any(|place| place.is_written() && self.has(place.identifier))
    }

    // Does a row with these places stay?
    fn keeps_row(&self, row: Instruction, places: &[Place]) -> bool
        requires result { row.result.identifier.0 < length self.now.marks.now }
        requires places { IdsFit self.now.marks.now places.now }
        ensures { result ≡ row_kept self.now.marks.now row places.now }
    {
        let needed = self.has(row.result.identifier) || self.has_written(places);
        sweep_keeps(is_acting(row.kind), needed)
    }
}

impl Keeps for Marked<'_> {
    ghost test = { λ s. kept_by (is_marked s.marks.now) };

    ghost ready = { λ s c. c.identifiers ≤ length s.marks.now };

    fn keeps(&self, store: &Store<'_>, row: InstructionId) -> bool {
        self.keeps_row(store.instructions[row.0 as usize], row_places(store, row))
    }
}
