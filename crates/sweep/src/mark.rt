ghost use Rattle.std.specs.Prelude.{◌≡◌, ◌≤◌, length};
ghost use Rattle.std.proofs.Props.{props};
ghost use Rattle.rules.specs.Views.{function_at};
ghost use Rattle.hir.specs.Tables.{tables};
ghost use Rattle.hir.specs.View.{view};
ghost use Rattle.dead_code_elimination.specs.Elimination.{Ready};
ghost use Rattle.sweep.specs.Marks.{MarksNeeded, TerminalsFit};

use super::kept::Marked;
use hir::{FormedStore, FunctionId, IdentifierId, InstructionId, Place};
use reading::{StoredFunction, row_places};
use thin::Keeps;

// A function whose needed identifiers are being marked: each identifier of its store has a mark byte.
#[derive(Drop)]
struct Marking<'s, 'a, 'm> {
    function: StoredFunction<'s, 'a>,
    marks: &'m mut [u8],
    ghost wide: { function.store.now.counts.identifiers ≤ length marks.now },
    ghost terminals: { TerminalsFit (tables function.store.now) } by { Prim.hlevel props },
}

// What marks answers how many identifiers it has newly marked. Blocks are gone through by number: the clauses speak of the k-th.
impl<'s> Marking<'s, '_, '_> {
    ghost use Rattle.std.specs.Prelude.{◌<◌};
    ghost use Rattle.std.specs.List.{AllByRecursion};
    ghost use Rattle.rules.specs.Views.{block_rows, identifiers_of};
    ghost use Rattle.hir.specs.View.{instruction_at, rows};
    ghost use Rattle.hir.specs.WellFormed.{PlaceFits};
    ghost use Rattle.reading.specs.Stored.{function_seen};
    ghost use Rattle.sweep.specs.Marks.{all_passed, ids, ids_read, is_marked, kept_by, passed, round_passed, terminal_at, terminals_marked, with_mark, with_marks};
    ghost use Rattle.sweep.specs.Marking.{HasMarked, LeavesMarks};

    #[tactic(auto, using(crate::proofs::Marking::one_less))]
    fn mark(&mut self, id: IdentifierId) -> usize
        requires { id.0 < self.old.function.store.now.counts.identifiers }
        ensures { HasMarked self.old self.new (with_mark self.old.marks.now id.0) result }
    {
        let at = id.0 as usize;
        if self.marks[at] != 0 {
            return 0;
        }
        self.marks[at] = 1;
        1
    }

    #[tactic(auto, using(crate::proofs::Marking::unmarked_most))]
    fn mark_reads(&mut self, places: &[Place]) -> usize
        requires { AllByRecursion (PlaceFits self.old.function.store.now.counts) places.now }
        ensures { HasMarked self.old self.new (with_marks self.old.marks.now (ids_read places.now)) result }
    {
        let mut new = 0;
        for place in places {
            if place.is_read() {
                new += self.mark(place.identifier);
            }
        }
        new
    }

    // Does one of its rows stay, by the marks so far?
    fn keeps(&self, number: u32) -> bool
        requires { number < self.now.function.store.now.counts.instructions }
        ensures { result ≡ kept_by (is_marked self.now.marks.now) (instruction_at (rows (tables self.now.function.store.now)) number) }
    {
        let marked = Marked { marks: self.marks };
        marked.keeps(self.function.store, InstructionId(number))
    }

    // If the row stays, what it reads is needed.
    fn mark_row(&mut self, number: u32) -> usize
        requires { number < self.old.function.store.now.counts.instructions }
        ensures { HasMarked self.old self.new (passed self.old.marks.now (instruction_at (rows (tables self.old.function.store.now)) number)) result }
    {
        if !self.keeps(number) {
            return 0;
        }
        self.mark_reads(row_places(self.function.store, InstructionId(number)))
    }

    // The rows of its k-th block, backwards.
    #[tactic(auto, using(crate::proofs::Marking::unmarked_most))]
    fn mark_block(&mut self, k: u32) -> usize
        requires { k < length (function_seen self.old.function).blocks }
        ensures { HasMarked self.old self.new (all_passed self.old.marks.now (block_rows (function_seen self.old.function).blocks k)) result }
    {
        let function = self.function;
        let mut new = 0;
        for number in function.list(k).numbers.iter().rev() {
            new += self.mark_row(*number);
        }
        new
    }

    // One round over its rows, backwards.
    #[tactic(auto, using(crate::proofs::Marking::unmarked_most))]
    fn mark_round(&mut self) -> usize
        ensures { HasMarked self.old self.new (round_passed self.old.marks.now (function_seen self.old.function).blocks) result }
    {
        let function = self.function;
        let mut new = 0;
        for k in (0..function.row().blocks.count).rev() {
            new += self.mark_block(k);
        }
        new
    }

    // The places of its k-th block's terminal.
    #[tactic(auto, using(hir::proofs::Seen::blocks_counted, crate::proofs::Reading::terminal_in_table))]
    fn terminal_places(&self, k: u32) -> &'s [Place]
        requires { k < length (function_seen self.now.function).blocks }
        ensures seen { ids result.now ≡ identifiers_of (terminal_at (function_seen self.now.function).blocks k) }
        ensures fit { AllByRecursion (PlaceFits self.now.function.store.now.counts) result.now }
    {
        let store = self.function.store;
        let function = store.functions[self.function.id.0 as usize];
        let run = store.blocks[(function.blocks.first + k) as usize].places;
        let first = run.first as usize;
        &store.places[first..first + run.count as usize]
    }

    // What that terminal reads.
    fn mark_terminal(&mut self, k: u32)
        requires { k < length (function_seen self.old.function).blocks }
        ensures { LeavesMarks self.old self.new (with_marks self.old.marks.now (identifiers_of (terminal_at (function_seen self.old.function).blocks k))) }
    {
        for place in self.terminal_places(k) {
            self.mark(place.identifier);
        }
    }

    fn mark_terminals(&mut self)
        ensures { LeavesMarks self.old self.new (terminals_marked self.old.marks.now (function_seen self.old.function).blocks) }
    {
        let function = self.function;
        for k in (0..function.row().blocks.count).rev() {
            self.mark_terminal(k);
        }
    }
}

// Marks what is needed. Backwards, a round follows every chain of reads that does not go back through a loop, so that a function
// without one takes two rounds: the second finds nothing new.
pub(super) fn mark_needed(store: &FormedStore<'_>, function: FunctionId, marks: &mut [u8])
    requires { Ready store.now.counts function.0 marks.old }
    ensures { MarksNeeded (function_at (view (tables store.now)) function.0).blocks marks.new }
{
    let function = StoredFunction {
        store: &store.lent,
        id: function,
    };
    let mut marking = Marking { function, marks };
    marking.mark_terminals();
    while marking.mark_round() > 0 {}
}
