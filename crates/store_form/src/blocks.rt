ghost use Rattle.std.specs.Prelude.{◌≡◌, MatchBool};
ghost use Rattle.std.specs.List.{AllByRecursion};
ghost use Rattle.kinds.specs.Roles.{number_of_role};
ghost use Rattle.hir.specs.WellFormed.{RunFits};
ghost use Rattle.hir.specs.declared.rows.Place.{Place};
ghost use Rattle.refusals.specs.Form.{BlockFormed, FunctionFormed, RunOf};

use super::form::Used;
use super::places::{name_if_fits, place_formed};
use hir::{BasicBlock, HirFunction, Place, Run, used_run};
use kinds::{BlockKind, FunctionType, Role, Terminal};

impl Used<'_> {
    pub fn blocks_formed(&self, rows: &[BasicBlock]) -> bool
        ensures { MatchBool result (AllByRecursion (BlockFormed self.now.counts self.now.places.now) rows.now) (AllByRecursion (BlockFormed self.now.counts self.now.places.now) rows.now → ⊥) }
    {
        rows.iter().all(|row| self.block_formed(row))
    }

    fn block_formed(&self, row: &BasicBlock) -> bool
        ensures { MatchBool result (BlockFormed self.now.counts self.now.places.now row.now) (BlockFormed self.now.counts self.now.places.now row.now → ⊥) }
    {
        BlockKind::try_from(row.kind).is_ok()
            && Terminal::try_from(row.terminal).is_ok()
            && run_fits(row.instructions, self.counts.numbers)
            && run_fits(row.preds, self.counts.numbers)
            && self.all_of_role(row.places, Role::Read)
    }

    pub fn functions_formed(&self, rows: &[HirFunction]) -> bool
        ensures { MatchBool result (AllByRecursion (FunctionFormed self.now.counts self.now.places.now) rows.now) (AllByRecursion (FunctionFormed self.now.counts self.now.places.now) rows.now → ⊥) }
    {
        rows.iter().all(|row| self.function_formed(row))
    }

    fn function_formed(&self, row: &HirFunction) -> bool
        ensures { MatchBool result (FunctionFormed self.now.counts self.now.places.now row.now) (FunctionFormed self.now.counts self.now.places.now row.now → ⊥) }
    {
        FunctionType::try_from(row.fn_type).is_ok()
            && row.returns.is_written()
            && place_formed(&row.returns, self.counts)
            && name_if_fits(row.tag, self.counts)
            && run_fits(row.blocks, self.counts.blocks)
            && self.all_of_role(row.params, Role::Written)
            && self.all_of_role(row.context, Role::Read)
    }

    fn all_of_role(&self, run: Run, role: Role) -> bool
        ensures { MatchBool result (RunOf (number_of_role role) self.now.counts self.now.places.now run) (RunOf (number_of_role role) self.now.counts self.now.places.now run → ⊥) }
    {
        used_run(self.places, self.counts.places, run).is_some_and(|places| roles_are(
            places,
            u8::from(role),
        ))
    }
}

fn run_fits(run: Run, used: u32) -> bool
    ensures { MatchBool result (RunFits run used) (RunFits run used → ⊥) }
{
    run.first as u64 + run.count as u64 <= used as u64
}

// By the role's number: with `has_role` the chain's proof did not close.
fn roles_are(places: &[Place], role: u8) -> bool
    ensures { MatchBool result (AllByRecursion (λ (p : Place). p.role ≡ role) places.now) (AllByRecursion (λ (p : Place). p.role ≡ role) places.now → ⊥) }
{
    places.iter().all(|place| place.role == role)
}
