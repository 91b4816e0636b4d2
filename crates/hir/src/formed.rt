ghost use Rattle.hir.specs.Tables.{tables};
ghost use Rattle.hir.specs.WellFormed.{WellFormed};

use super::rows::Store;
use std::marker::Model;
use std::mem;

// A store whose form was checked; clauses see the store. Whoever writes to it leaves it well formed.
#[derive(Drop)]
pub struct FormedStore<'a> {
    pub lent: Store<'a>,
}

impl<'a> Model for FormedStore<'a> {
    ghost use Rattle.hir.specs.declared.rows.Store.{Store};
    ghost use Rattle.hir.specs.Tables.{tables};
    ghost use Rattle.hir.specs.WellFormed.{WellFormed};

    ghost Value = { Store };

    ghost view = { λ f. f.lent };

    ghost invariant = { λ f. WellFormed (tables f.lent) };
}

impl<'a> FormedStore<'a> {
    // Hands a store that is lent and well formed to `work` as such a one, and leaves it to its owner as `work` gives it back. `given` goes
    // along.
    pub fn on<X, R, F: FnOnce(FormedStore<'a>, X) -> (FormedStore<'a>, R)>(
        store: &mut Store<'a>,
        given: X,
        work: F,
    ) -> R
        requires well { WellFormed (tables store.old) }
        requires callable { F.pre work store.old given }
        ensures done { F.post work store.old given (store.new, result) }
        ensures well { WellFormed (tables store.new) }
    {
        let lent = mem::take(store);
        let (formed, result) = work(FormedStore { lent }, given);
        *store = formed.lent;
        result
    }
}
