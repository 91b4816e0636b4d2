//! Eliminations: what drops rows from the lists of a function. The Rust calls its `dead_code_elimination` after each block that it has
//! rewritten; here that pass is a parameter, and anything that keeps the laws may stand for it.
#![tactic(auto)]

ghost use Rattle.std.specs.Prelude.{◌≡◌, length};
ghost use Rattle.rules.specs.Views.{with_list};
ghost use Rattle.rules.specs.Eliminations.{Meaning, Lawful, eliminated, keep};
ghost use Rattle.hir.specs.Tables.{tables, Held};
ghost use Rattle.hir.specs.View.{instructions_at, rows, view};
ghost use Rattle.hir.specs.WellFormed.{numbers_limit, Room, WellFormed};
ghost use Rattle.hir.specs.Lists.{block_number, HasBlock, ListFits, UnlistedBut};
ghost use Rattle.hir.specs.Frame.{Kept};
ghost use Rattle.dead_code_elimination.specs.Elimination.{Eliminates, Ready, Zero};
ghost use Rattle.rules.proofs.Sweeping.{keep_lawful};

use hir::{FormedStore, FunctionId};
use store::set_block_list;

// An elimination is known by its meaning: the lists that it leaves to the blocks of a function, worked out of what the store says. By the
// laws each list is a part of the old one in the same order, rows that act stay, and so does a row that writes what is read afterwards.
pub trait Elimination {
    ghost meaning: { Meaning };

    // The mark bytes are its to use, and are zero again when it returns.
    fn eliminate(&self, store: &mut FormedStore<'_>, function: FunctionId, marks: &mut [u8])
        requires { Ready store.old.counts function.0 marks.old }
        ensures does { Eliminates meaning store.old store.new function.0 }
        ensures clear { Zero marks.new };

    ghost lawful: { Lawful meaning };
}

// Drops nothing.
#[derive(Clone, Copy)]
pub struct Keep;

impl Elimination for Keep {
    ghost meaning = { keep };

    ghost lawful = { keep_lawful };

    // Looked into, so that it is known to be well formed.
    fn eliminate(&self, store: &mut FormedStore<'_>, _function: FunctionId, _marks: &mut [u8]) {
        let _ = &store.lent;
    }
}

// The k-th block of a function is given a new list; then what this leaves unread may go.
pub fn rewrite_block<E: Elimination>(
    elimination: &E,
    store: &mut FormedStore<'_>,
    function: FunctionId,
    k: u32,
    list: &[u32],
    marks: &mut [u8],
)
    requires ready { Ready store.old.counts function.0 marks.old }
    requires has { HasBlock (tables store.old) function.0 k }
    requires room { Room store.old.counts.numbers (length list.now) (length store.old.numbers.now) numbers_limit }
    requires fits { ListFits (tables store.old) list.now }
    requires unlisted { UnlistedBut (tables store.old) (block_number (tables store.old) function.0 k) list.now }
    ensures seen { view (tables store.new) ≡ eliminated E.Elimination.meaning (with_list (view (tables store.old)) function.0 k (instructions_at (rows (tables store.old)) list.now)) function.0 }
    ensures well { WellFormed (tables store.new) }
    ensures kept { Kept (tables store.old) (tables store.new) }
    ensures held { Held store.new store.old }
    ensures clear { Zero marks.new }
    ensures lawful { Lawful E.Elimination.meaning }
{
    set_block_list(store, function, k, list);
    elimination.eliminate(store, function, marks);
}
