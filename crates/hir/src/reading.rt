ghost use Rattle.hir.specs.Used.{ReadsRow, ReadsRun};

use super::rows::{
    BasicBlock, FunctionId, HirFunction, Identifier, IdentifierId, Instruction, InstructionId,
    Name, Place, Run, Store,
};

// The rows of a run, unless it leaves the used rows.
pub fn used_run<T>(table: &[T], used: u32, run: Run) -> Option<&[T]>
    ensures { ReadsRun table.now used run result }
{
    let first = run.first as usize;
    let end = first + run.count as usize;
    if end > used as usize || end > table.len() {
        return None;
    }
    Some(&table[first..end])
}

// The row of a number, unless it is not used.
pub fn used_row<T>(table: &[T], used: u32, number: u32) -> Option<&T>
    ensures { ReadsRow table.now used number result }
{
    if number >= used {
        return None;
    }
    table.get(number as usize)
}

// The same for each table of a store, by the sort of number that it takes: a line each, which a trait over the sorts would have too.
impl Store<'_> {
    pub fn bytes_of(&self, name: Name) -> Option<&[u8]>
        ensures { ReadsRun self.now.text.now self.now.counts.text (record { first = name.start; count = name.len }) result }
    {
        used_run(
            self.text,
            self.counts.text,
            Run {
                first: name.start,
                count: name.len,
            },
        )
    }

    pub fn places_of(&self, run: Run) -> Option<&[Place]>
        ensures { ReadsRun self.now.places.now self.now.counts.places run result }
    {
        used_run(self.places, self.counts.places, run)
    }

    pub fn numbers_of(&self, run: Run) -> Option<&[u32]>
        ensures { ReadsRun self.now.numbers.now self.now.counts.numbers run result }
    {
        used_run(self.numbers, self.counts.numbers, run)
    }

    pub fn blocks_of(&self, run: Run) -> Option<&[BasicBlock]>
        ensures { ReadsRun self.now.blocks.now self.now.counts.blocks run result }
    {
        used_run(self.blocks, self.counts.blocks, run)
    }

    pub fn identifier(&self, id: IdentifierId) -> Option<&Identifier>
        ensures { ReadsRow self.now.identifiers.now self.now.counts.identifiers id.0 result }
    {
        used_row(self.identifiers, self.counts.identifiers, id.0)
    }

    pub fn instruction(&self, id: InstructionId) -> Option<&Instruction>
        ensures { ReadsRow self.now.instructions.now self.now.counts.instructions id.0 result }
    {
        used_row(self.instructions, self.counts.instructions, id.0)
    }

    pub fn function(&self, id: FunctionId) -> Option<&HirFunction>
        ensures { ReadsRow self.now.functions.now self.now.counts.functions id.0 result }
    {
        used_row(self.functions, self.counts.functions, id.0)
    }
}
