ghost use Rattle.std.specs.Prelude.{◌<◌, ◌≤◌, length};
ghost use Rattle.dead_code_elimination.specs.Elimination.{Eliminates};
ghost use Rattle.sweep.specs.Marks.{by_marks};

use super::kept::Marked;
use hir::{FormedStore, FunctionId};
use thin::thin_block_list;

// Each list of a function, without the rows that the marks do not keep; by block number, since the store changes on the way.
pub(super) fn thin_lists(store: &mut FormedStore<'_>, function: FunctionId, marks: &[u8])
    requires wide { store.old.counts.identifiers ≤ length marks.now }
    requires used { function.0 < store.old.counts.functions }
    ensures { Eliminates (by_marks marks.now) store.old store.new function.0 }
{
    let keep = Marked { marks };
    for k in 0..store.lent.functions[function.0 as usize].blocks.count {
        thin_block_list(store, function, k, &keep);
    }
}
