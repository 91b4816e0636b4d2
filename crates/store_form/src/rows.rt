ghost use Rattle.std.specs.Prelude.{MatchBool};
ghost use Rattle.hir.specs.Tables.{tables};
ghost use Rattle.hir.specs.View.{rows};
ghost use Rattle.hir.specs.WellFormed.{Counted};
ghost use Rattle.refusals.specs.Form.{RowsFormed};

use super::counts::tags_low;
use super::form::Used;
use super::places::{identifiers_formed, places_formed};
use hir::Store;

// Every used row has its form, whatever function it belongs to.
pub fn rows_formed(store: &Store<'_>) -> bool
    requires { Counted (tables store.now) }
    ensures { MatchBool result (RowsFormed store.now.counts (rows (tables store.now))) (RowsFormed store.now.counts (rows (tables store.now)) → ⊥) }
{
    let counts = store.counts;
    let places = &store.places[..counts.places as usize];
    let used = Used { counts, places };
    tags_low(counts)
        && identifiers_formed(&store.identifiers[..counts.identifiers as usize], counts)
        && places_formed(places, counts)
        && used.instructions_formed(&store.instructions[..counts.instructions as usize])
        && used.blocks_formed(&store.blocks[..counts.blocks as usize])
        && used.functions_formed(&store.functions[..counts.functions as usize])
}
