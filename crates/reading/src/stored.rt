// A function of a well-formed store, and a list of rows with the store that they stand in. What holds of them is part of their types.
ghost use Rattle.std.specs.Prelude.{ℕ, ◌<◌};
ghost use Rattle.std.specs.List.{AllByRecursion};
ghost use Rattle.std.proofs.Props.{props};
ghost use Rattle.hir.specs.Tables.{tables};
ghost use Rattle.hir.specs.Legible.{Legible};
ghost use Rattle.hir.proofs.Props.{Legible-prop};

use super::{row_places, stored_row};
use hir::{FunctionId, HirFunction, Instruction, InstructionId, Place, Store};

#[derive(Clone, Copy)]
pub struct StoredFunction<'s, 'a> {
    pub store: &'s Store<'a>,
    pub id: FunctionId,
    pub ghost legible: { Legible (tables store.now) } by { Legible-prop (tables store.now) },
    pub ghost used: { id.0 < store.now.counts.functions },
}

#[derive(Clone, Copy)]
pub struct RowList<'s, 'a> {
    pub store: &'s Store<'a>,
    pub numbers: &'s [u32],
    pub ghost legible: { Legible (tables store.now) } by { Legible-prop (tables store.now) },
    pub ghost listed: { AllByRecursion (λ n. n < store.now.counts.instructions) numbers.now } by { Prim.hlevel props },
}

impl<'s, 'a> StoredFunction<'s, 'a> {
    ghost use Rattle.std.specs.Prelude.{◌≡◌, length};
    ghost use Rattle.rules.specs.Views.{block_rows};
    ghost use Rattle.hir.specs.Tables.{tables};
    ghost use Rattle.hir.specs.Lists.{block_of};
    ghost use Rattle.hir.specs.Used.{in_run};
    ghost use Rattle.hir.specs.View.{function_view, rows};
    ghost use Rattle.reading.specs.Stored.{function_seen, rows_in};

    // Its row.
    pub fn row(&self) -> HirFunction
        ensures seen { function_view (rows (tables self.now.store.now)) result ≡ function_seen self.now }
        ensures blocks { result.blocks.count ≡ length (function_seen self.now).blocks }
    {
        self.store.functions[self.id.0 as usize]
    }

    // The rows that its k-th block lists.
    pub fn list(&self, k: u32) -> RowList<'s, 'a>
        requires { k < length (function_seen self.now).blocks }
        ensures store { result.store ≡ self.now.store }
        ensures numbers { result.numbers.now ≡ in_run (rows (tables self.now.store.now)).numbers (block_of (tables self.now.store.now) self.now.id.0 k).instructions }
        ensures seen { rows_in result ≡ block_rows (function_seen self.now).blocks k }
    {
        let store = self.store;
        let at = (store.functions[self.id.0 as usize].blocks.first + k) as usize;
        let run = store.blocks[at].instructions;
        let first = run.first as usize;
        RowList {
            store,
            numbers: &store.numbers[first..first + run.count as usize],
        }
    }
}

impl<'s, 'a> RowList<'s, 'a> {
    ghost use Rattle.std.specs.Prelude.{◌≡◌, map};
    ghost use Rattle.std.specs.List.{AllByRecursion};
    ghost use Rattle.hir.specs.Tables.{tables};
    ghost use Rattle.hir.specs.View.{instruction_at, instruction_view, place_view, rows, view};
    ghost use Rattle.hir.specs.WellFormed.{InstructionFits, PlaceFits};

    // One of its rows, by its number.
    pub fn row(&self, number: u32) -> Instruction
        requires { number < self.now.store.now.counts.instructions }
        ensures seen { instruction_at (rows (tables self.now.store.now)) number ≡ instruction_view (rows (tables self.now.store.now)) result }
        ensures fits { InstructionFits self.now.store.now.counts result }
    {
        stored_row(self.store, InstructionId(number))
    }

    // The places of that row.
    pub fn places(&self, number: u32) -> &'s [Place]
        requires { number < self.now.store.now.counts.instructions }
        ensures seen { map (place_view (view (tables self.now.store.now)).text) result.now ≡ (instruction_at (rows (tables self.now.store.now)) number).places }
        ensures fit { AllByRecursion (PlaceFits self.now.store.now.counts) result.now }
    {
        row_places(self.store, InstructionId(number))
    }
}
