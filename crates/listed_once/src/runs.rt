ghost use Rattle.std.specs.Prelude.{◌≡◌, ℕ, ◌+◌, ◌<◌, ◌≤◌, length, replicate, MatchBool, slice_index_or};
ghost use Rattle.std.specs.List.{AllByRecursion};
ghost use Rattle.std.specs.Fn.{FnReturnsAt};
ghost use Rattle.hir.specs.declared.rows.Run.{Run};
ghost use Rattle.hir.specs.View.{null_block, null_function};
ghost use Rattle.hir.specs.WellFormed.{RunFits};
ghost use Rattle.listed_once.specs.Marking.{AllClear, list_or_preds, Marked, MarksRun, NoMarks, RunsAre, RunsFit, Unmarked};

use hir::{BasicBlock, HirFunction, Run};

// Marks all; true if none was marked.
fn mark_all(marks: &mut [u8]) -> bool
    ensures free { MatchBool result (AllByRecursion (λ m. m ≡ 0) marks.old) (AllByRecursion (λ m. m ≡ 0) marks.old → ⊥) }
    ensures marked { marks.new ≡ replicate (length marks.old) 1 }
{
    let free = marks.iter().all(|mark| *mark == 0);
    marks.fill(1);
    free
}

// Marks what a run covers; false if some of it is marked already.
fn mark_run(run: Run, marks: &mut [u8]) -> bool
    requires { RunFits run (length marks.old) }
    ensures { MatchBool result (MarksRun run marks.old marks.new) (Unmarked run marks.old → ⊥) }
{
    let first = run.first as usize;
    mark_all(&mut marks[first..first + run.count as usize])
}

// Marks the runs of rows one after another; false if a run covers what is marked already. A loop, since the marks change on the way.
fn mark_runs<T, F: Fn(&T) -> Run>(rows: &[T], run_of: F, marks: &mut [u8]) -> bool
    requires callable { F.IsAlwaysCallable run_of }
    requires fit { RunsFit (FnReturnsAt F.Fn run_of) rows.now (length marks.old) }
    ensures { (run : ℕ → Run) (n : ℕ) → RunsAre (FnReturnsAt F.Fn run_of) rows.now run n → Marked run n marks.old
        → MatchBool result (Marked run (n + length rows.now) marks.new) ((m : ℕ) → n + length rows.now ≤ m → AllClear run m → ⊥) }
{
    for row in rows {
        if !mark_run(run_of(row), marks) {
            return false;
        }
    }
    true
}

// No list number is covered by two lists or predecessor runs.
pub fn lists_apart(blocks: &[BasicBlock], marks: &mut [u8]) -> bool
    requires lists { (b : ℕ) → b < length blocks.now → RunFits (slice_index_or blocks.now b null_block).instructions (length marks.old) }
    requires preds { (b : ℕ) → b < length blocks.now → RunFits (slice_index_or blocks.now b null_block).preds (length marks.old) }
    requires clear { NoMarks marks.old }
    ensures { MatchBool result (AllClear (list_or_preds blocks.now) (length blocks.now + length blocks.now)) (AllClear (list_or_preds blocks.now) (length blocks.now + length blocks.now) → ⊥) }
{
    mark_runs(blocks, |block| block.instructions, marks)
        && mark_runs(blocks, |block| block.preds, marks)
}

// No block is in two functions.
pub fn functions_apart(functions: &[HirFunction], marks: &mut [u8]) -> bool
    requires fit { (f : ℕ) → f < length functions.now → RunFits (slice_index_or functions.now f null_function).blocks (length marks.old) }
    requires clear { NoMarks marks.old }
    ensures { MatchBool result (AllClear (λ f. (slice_index_or functions.now f null_function).blocks) (length functions.now)) (AllClear (λ f. (slice_index_or functions.now f null_function).blocks) (length functions.now) → ⊥) }
{
    mark_runs(functions, |function| function.blocks, marks)
}
