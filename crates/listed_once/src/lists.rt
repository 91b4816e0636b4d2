ghost use Rattle.std.specs.Prelude.{ℕ, ◌+◌, ◌<◌, ◌≤◌, length, MatchBool, slice_index_or};
ghost use Rattle.std.specs.List.{AllByRecursion};
ghost use Rattle.hir.specs.Used.{in_run};
ghost use Rattle.hir.specs.View.{null_block};
ghost use Rattle.hir.specs.WellFormed.{RunFits};
ghost use Rattle.listed_once.specs.Listing.{BlockNamed, ListedBelow, ListedOnce, ListsFit};
ghost use Rattle.listed_once.specs.Marking.{NoMarks};

use hir::{BasicBlock, Run};

// No two positions list one row. Loops, since the marks change on the way.
pub fn rows_once(blocks: &[BasicBlock], numbers: &[u32], marks: &mut [u8]) -> bool
    requires fit { ListsFit blocks.now numbers.now }
    requires below { ListedBelow blocks.now numbers.now (length marks.old) }
    requires clear { NoMarks marks.old }
    ensures { MatchBool result (ListedOnce blocks.now numbers.now) (ListedOnce blocks.now numbers.now → ⊥) }
{
    for block in blocks {
        let list = block.instructions;
        let first = list.first as usize;
        for row in &numbers[first..first + list.count as usize] {
            let mark = &mut marks[*row as usize];
            if *mark != 0 {
                return false;
            }
            *mark = 1;
        }
    }
    true
}

// Lists name used rows, and predecessors used blocks. No `all`, since what `run_below` asks holds of these blocks alone.
pub fn lists_named(blocks: &[BasicBlock], numbers: &[u32], rows: u32, used: u32) -> bool
    requires lists { (b : ℕ) → b < length blocks.now → RunFits (slice_index_or blocks.now b null_block).instructions (length numbers.now) }
    requires preds { (b : ℕ) → b < length blocks.now → RunFits (slice_index_or blocks.now b null_block).preds (length numbers.now) }
    ensures { MatchBool result (AllByRecursion (BlockNamed numbers.now rows used) blocks.now) (AllByRecursion (BlockNamed numbers.now rows used) blocks.now → ⊥) }
{
    for block in blocks {
        if !run_below(block.instructions, numbers, rows) || !run_below(block.preds, numbers, used) {
            return false;
        }
    }
    true
}

fn run_below(run: Run, numbers: &[u32], bound: u32) -> bool
    requires { RunFits run (length numbers.now) }
    ensures { MatchBool result (AllByRecursion (λ n. n < bound) (in_run numbers.now run)) (AllByRecursion (λ n. n < bound) (in_run numbers.now run) → ⊥) }
{
    let first = run.first as usize;
    all_below(&numbers[first..first + run.count as usize], bound)
}

fn all_below(numbers: &[u32], bound: u32) -> bool
    ensures { MatchBool result (AllByRecursion (λ n. n < bound) numbers.now) (AllByRecursion (λ n. n < bound) numbers.now → ⊥) }
{
    numbers.iter().all(|number| *number < bound)
}
