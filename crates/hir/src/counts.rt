ghost use Rattle.std.specs.Prelude.{◌≡◌, ℕ, ◌+◌, ◌-◌, ◌^◌, ◌<◌, ◌≤◌};
ghost use Rattle.hir.specs.Tables.{more_blocks, more_functions, more_identifiers, more_instructions, more_numbers, more_places, more_text, tag_taken};
ghost use Rattle.hir.specs.WellFormed.{blocks_limit, functions_limit, identifiers_limit, instructions_limit, numbers_limit, places_limit, text_limit};

use super::rows::{BlockId, Counts, FunctionId, IdentifierId, InstructionId, Name, Run};
use super::tag::Tag;

// How many rows of each table may be used, and how high the tag counter and the tag mark may be.
pub const LIMITS: Counts = Counts {
    text: 1_048_576,
    identifiers: 65_535,
    places: 262_144,
    instructions: 65_535,
    numbers: 262_144,
    blocks: 16_384,
    functions: 1_024,
    tag_counter: 1_000_000,
    tag_mark: 1_000_000,
};

// So many rows more are used. Answers where they begin.
fn take(used: &mut u32, count: u32) -> u32
    requires { used.old + count < 2 ^ 32 }
    ensures first { result ≡ used.old }
    ensures more { used.new ≡ used.old + count }
{
    let first = *used;
    *used += count;
    first
}

// Taking rows that were spare: each answers where they begin, and no other count changes. The caller has seen to the room. They are
// methods of the counts, one for each table, by a rule of the project.
impl Counts {
    pub fn take_text(&mut self, len: u32) -> Name
        requires { self.old.text + len ≤ text_limit }
        ensures at { result ≡ record { start = self.old.text; len = len } }
        ensures counts { self.new ≡ more_text self.old len }
    {
        let start = take(&mut self.text, len);
        Name { start, len }
    }

    pub fn take_identifier(&mut self) -> IdentifierId
        requires { self.old.identifiers < identifiers_limit }
        ensures at { result.0 ≡ self.old.identifiers }
        ensures counts { self.new ≡ more_identifiers self.old 1 }
    {
        IdentifierId(take(&mut self.identifiers, 1))
    }

    pub fn take_places(&mut self, count: u32) -> Run
        requires { self.old.places + count ≤ places_limit }
        ensures at { result ≡ record { first = self.old.places; count = count } }
        ensures counts { self.new ≡ more_places self.old count }
    {
        let first = take(&mut self.places, count);
        Run { first, count }
    }

    pub fn take_instruction(&mut self) -> InstructionId
        requires { self.old.instructions < instructions_limit }
        ensures at { result.0 ≡ self.old.instructions }
        ensures counts { self.new ≡ more_instructions self.old 1 }
    {
        InstructionId(take(&mut self.instructions, 1))
    }

    pub fn take_numbers(&mut self, count: u32) -> Run
        requires { self.old.numbers + count ≤ numbers_limit }
        ensures at { result ≡ record { first = self.old.numbers; count = count } }
        ensures counts { self.new ≡ more_numbers self.old count }
    {
        let first = take(&mut self.numbers, count);
        Run { first, count }
    }

    pub fn take_block(&mut self) -> BlockId
        requires { self.old.blocks < blocks_limit }
        ensures at { result.0 ≡ self.old.blocks }
        ensures counts { self.new ≡ more_blocks self.old 1 }
    {
        BlockId(take(&mut self.blocks, 1))
    }

    pub fn take_function(&mut self) -> FunctionId
        requires { self.old.functions < functions_limit }
        ensures at { result.0 ≡ self.old.functions }
        ensures counts { self.new ≡ more_functions self.old 1 }
    {
        FunctionId(take(&mut self.functions, 1))
    }

    // Taking a tag raises the counter by one and sets the mark to the tag's number.
    pub fn take_tag(&mut self, number: u32, name: Name) -> Tag
        requires { self.old.tag_counter < 2 ^ 32 - 1 }
        ensures tag { result ≡ record { number = number; name = name } }
        ensures counts { self.new ≡ tag_taken self.old number }
    {
        self.tag_counter += 1;
        self.tag_mark = number;
        Tag::new(number, name)
    }
}
