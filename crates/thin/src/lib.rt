//! Making a block's list shorter in its own place: what is kept moves to the list's front. The rows past it are nobody's.
#![tactic(auto)]

ghost use Rattle.std.specs.Prelude.{◌≡◌, ℕ, ◌+◌, ◌<◌, ◌≤◌, Bool, length};
ghost use Rattle.std.proofs.Math.Seq.{paste};
ghost use Rattle.std.specs.List.{AllByRecursion};
ghost use Rattle.rules.specs.Lists.{select};
ghost use Rattle.rules.specs.Views.{rows_at, with_list, InstructionV};
ghost use Rattle.hir.specs.declared.rows.Counts.{Counts};
ghost use Rattle.hir.specs.Used.{in_run};
ghost use Rattle.hir.specs.Tables.{hold_numbers, tables, Held};
ghost use Rattle.hir.specs.View.{instruction_at, rows, view};
ghost use Rattle.hir.specs.WellFormed.{Readable, WellFormed};
ghost use Rattle.hir.specs.Lists.{with_thinned_list, HasBlock};
ghost use Rattle.hir.specs.Frame.{Becomes};
ghost use Rattle.thin.specs.Kept.{kept_numbers, kept_of, rewritten};

use hir::{FormedStore, FunctionId, InstructionId, Run, Store};

// What decides of each row whether it stays. A trait and no closure: a clause names the test of each implementor, where of a closure it
// knows only what the calls answered.
pub trait Keeps {
    // the rows that stay
    ghost test: { Self → InstructionV → Bool };

    // what it needs of the counts
    ghost ready: { Self → Counts → Type 0 };

    fn keeps(&self, store: &Store<'_>, row: InstructionId) -> bool
        requires readable { Readable (tables store.now) }
        requires used { row.0 < store.now.counts.instructions }
        requires ready { ready self.now store.now.counts }
        ensures { result ≡ test self.now (instruction_at (rows (tables store.now)) row.0) };
}

// Moves the numbers of the rows that stay to the front of the run, and answers how many there are. Each row is asked about with the whole
// store, so the loop goes over the table's indices: an iterator over the run would hold the table.
fn gather_kept<K: Keeps>(store: &mut Store<'_>, run: Run, keep: &K) -> u32
    requires readable { Readable (tables store.old) }
    requires fits { run.first + run.count ≤ length store.old.numbers.now }
    requires small { run.first + run.count ≤ 262144 }
    requires listed { AllByRecursion (λ n. n < store.old.counts.instructions) (in_run store.old.numbers.now run) }
    requires ready { K.Keeps.ready keep.now store.old.counts }
    ensures count { result ≡ length (kept_of (K.Keeps.test keep.now) (tables store.old) (in_run store.old.numbers.now run)) }
    ensures writes { tables store.new ≡ rewritten (tables store.old) run.first (kept_of (K.Keeps.test keep.now) (tables store.old) (in_run store.old.numbers.now run)) }
    ensures held { Held store.new store.old }
{
    let first = run.first as usize;
    let mut end = first;
    for i in first..first + run.count as usize {
        let row = store.numbers[i];
        if keep.keeps(store, InstructionId(row)) {
            store.numbers[end] = row;
            end += 1;
        }
    }
    (end - first) as u32
}

fn write_thinned<K: Keeps>(store: &mut Store<'_>, function: FunctionId, k: u32, keep: &K)
    requires well { WellFormed (tables store.old) }
    requires has { HasBlock (tables store.old) function.0 k }
    requires ready { K.Keeps.ready keep.now store.old.counts }
    ensures writes { tables store.new ≡ with_thinned_list (tables store.old) function.0 k (kept_numbers (K.Keeps.test keep.now) (tables store.old) function.0 k) }
    ensures held { Held store.new store.old }
{
    let at = (store.functions[function.0 as usize].blocks.first + k) as usize;
    let run = store.blocks[at].instructions;
    let count = gather_kept(store, run, keep);
    store.blocks[at].instructions.count = count;
}

// Leaves the k-th block of a function the rows that are to stay, in their order.
pub fn thin_block_list<K: Keeps>(
    store: &mut FormedStore<'_>,
    function: FunctionId,
    k: u32,
    keep: &K,
)
    requires has { HasBlock (tables store.old) function.0 k }
    requires ready { K.Keeps.ready keep.now store.old.counts }
    ensures does { Becomes store.old store.new (with_thinned_list (tables store.old) function.0 k (kept_numbers (K.Keeps.test keep.now) (tables store.old) function.0 k)) (with_list (view (tables store.old)) function.0 k (select (K.Keeps.test keep.now) (rows_at (view (tables store.old)) function.0 k))) }
{
    write_thinned(&mut store.lent, function, k, keep)
}
