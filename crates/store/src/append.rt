ghost use Rattle.std.specs.Prelude.{◌≡◌, ℕ, ◌+◌, ◌-◌, ◌^◌, ◌<◌, ◌≤◌, [], ◌∷◌, ◌++◌, length};
ghost use Rattle.std.specs.List.{AllByRecursion};
ghost use Rattle.rules.specs.Views.{with_functions};
ghost use Rattle.rules.specs.Props.{fresh};
ghost use Rattle.hir.specs.Tables.{tables, with_function, with_identifier, with_instruction, with_numbers, with_places, Held};
ghost use Rattle.hir.specs.View.{function_view, instruction_view, name_view, rows, view, with_row_taken};
ghost use Rattle.hir.specs.WellFormed.{functions_limit, identifiers_limit, instructions_limit, numbers_limit, places_limit, IdentifierNameFits, InstructionFits, PlaceFits, Room};
ghost use Rattle.hir.specs.Lists.{FunctionFitsIn};
ghost use Rattle.hir.specs.Tags.{one_appended, with_tag_name};
ghost use Rattle.hir.specs.Frame.{Becomes};

use hir::{
    FormedStore, FunctionId, HirFunction, Identifier, IdentifierId, IdentifierName, Instruction,
    InstructionId, Place, Report, Run, Store, Tag, write_rows,
};

// Each append has a part that only writes, and asks for room alone. They differ in the table and the count that they name, which is all that
// the impls of a trait over tables would say.

fn write_places(store: &mut Store<'_>, places: &[Place]) -> Run
    requires { Room store.old.counts.places (length places.now) (length store.old.places.now) places_limit }
    ensures at { result ≡ record { first = store.old.counts.places; count = length places.now } }
    ensures writes { tables store.new ≡ with_places (tables store.old) places.now }
    ensures held { Held store.new store.old }
{
    let run = store.counts.take_places(places.len() as u32);
    write_rows(store.places, run.first, places);
    run
}

// Places, as one run. Nothing that was seen changes.
pub fn append_places(store: &mut FormedStore<'_>, places: &[Place]) -> Run
    requires room { Room store.old.counts.places (length places.now) (length store.old.places.now) places_limit }
    requires fits { AllByRecursion (PlaceFits store.old.counts) places.now }
    ensures at { result ≡ record { first = store.old.counts.places; count = length places.now } }
    ensures does { Becomes store.old store.new (with_places (tables store.old) places.now) (view (tables store.old)) }
{
    write_places(&mut store.lent, places)
}

// One place.
pub fn append_place(store: &mut FormedStore<'_>, place: Place) -> u32
    requires room { Room store.old.counts.places 1 (length store.old.places.now) places_limit }
    requires fits { PlaceFits store.old.counts place }
    ensures at { result ≡ store.old.counts.places }
    ensures does { Becomes store.old store.new (with_places (tables store.old) (place ∷ [])) (view (tables store.old)) }
{
    append_places(store, &[place]).first
}

fn write_instruction(store: &mut Store<'_>, instruction: Instruction) -> InstructionId
    requires { Room store.old.counts.instructions 1 (length store.old.instructions.now) instructions_limit }
    ensures at { result.0 ≡ store.old.counts.instructions }
    ensures writes { tables store.new ≡ with_instruction (tables store.old) instruction }
    ensures held { Held store.new store.old }
{
    let id = store.counts.take_instruction();
    store.instructions[id.0 as usize] = instruction;
    id
}

// A row, which no block lists yet. It is counted, and bears its name if it loads or stores a global.
pub fn append_instruction(store: &mut FormedStore<'_>, instruction: Instruction) -> InstructionId
    requires room { Room store.old.counts.instructions 1 (length store.old.instructions.now) instructions_limit }
    requires fits { InstructionFits store.old.counts instruction }
    ensures at { result.0 ≡ store.old.counts.instructions }
    ensures does { Becomes store.old store.new (with_instruction (tables store.old) instruction) (with_row_taken (view (tables store.old)) (instruction_view (rows (tables store.old)) instruction)) }
{
    write_instruction(&mut store.lent, instruction)
}

pub(super) fn write_numbers(store: &mut Store<'_>, numbers: &[u32]) -> Run
    requires { Room store.old.counts.numbers (length numbers.now) (length store.old.numbers.now) numbers_limit }
    ensures at { result ≡ record { first = store.old.counts.numbers; count = length numbers.now } }
    ensures writes { tables store.new ≡ with_numbers (tables store.old) numbers.now }
    ensures held { Held store.new store.old }
{
    let run = store.counts.take_numbers(numbers.len() as u32);
    write_rows(store.numbers, run.first, numbers);
    run
}

// Numbers for the list table, as one run. They mean nothing until a block has the run.
pub fn append_numbers(store: &mut FormedStore<'_>, numbers: &[u32]) -> Run
    requires room { Room store.old.counts.numbers (length numbers.now) (length store.old.numbers.now) numbers_limit }
    ensures at { result ≡ record { first = store.old.counts.numbers; count = length numbers.now } }
    ensures does { Becomes store.old store.new (with_numbers (tables store.old) numbers.now) (view (tables store.old)) }
{
    write_numbers(&mut store.lent, numbers)
}

fn write_identifier(store: &mut Store<'_>, identifier: Identifier) -> IdentifierId
    requires { Room store.old.counts.identifiers 1 (length store.old.identifiers.now) identifiers_limit }
    ensures at { result.0 ≡ store.old.counts.identifiers }
    ensures writes { tables store.new ≡ with_identifier (tables store.old) identifier }
    ensures held { Held store.new store.old }
{
    let id = store.counts.take_identifier();
    store.identifiers[id.0 as usize] = identifier;
    id
}

// A fresh identifier (the Rust's `next_identifier_id`): its declaration number is its own.
pub fn fresh_identifier(store: &mut FormedStore<'_>, name: Option<IdentifierName>) -> IdentifierId
    requires room { Room store.old.counts.identifiers 1 (length store.old.identifiers.now) identifiers_limit }
    requires fits { IdentifierNameFits store.old.counts name }
    ensures at { result.0 ≡ store.old.counts.identifiers }
    ensures numbered { result.0 ≡ length (view (tables store.old)).identifiers }
    ensures does { Becomes store.old store.new (with_identifier (tables store.old) (record { declaration = store.old.counts.identifiers; name = name })) (fresh (view (tables store.old)) (name_view (view (tables store.old)).text name)) }
{
    let declaration = store.lent.counts.identifiers;
    write_identifier(&mut store.lent, Identifier { declaration, name })
}

fn write_function(store: &mut Store<'_>, function: HirFunction) -> FunctionId
    requires { Room store.old.counts.functions 1 (length store.old.functions.now) functions_limit }
    ensures at { result.0 ≡ store.old.counts.functions }
    ensures writes { tables store.new ≡ with_function (tables store.old) function }
    ensures held { Held store.new store.old }
{
    let id = store.counts.take_function();
    store.functions[id.0 as usize] = function;
    id
}

// A function (the Rust's `outline_function`): the tag is put on it, and it is seen after those that were there.
pub fn append_function(
    store: &mut FormedStore<'_>,
    function: HirFunction,
    tag: Tag,
    report: &mut Report,
) -> FunctionId
    requires room { Room store.old.counts.functions 1 (length store.old.functions.now) functions_limit }
    requires fits { FunctionFitsIn (tables store.old) (with_tag_name function tag.name) }
    requires reported { report.old.functions < 2 ^ 32 - 1 }
    ensures at { result.0 ≡ store.old.counts.functions }
    ensures counted { report.new ≡ one_appended report.old }
    ensures does { Becomes store.old store.new (with_function (tables store.old) (with_tag_name function tag.name)) (with_functions (view (tables store.old)) ((view (tables store.old)).functions ++ (function_view (rows (tables store.old)) (with_tag_name function tag.name) ∷ []))) }
{
    let borne = tag.put_on(function, report);
    write_function(&mut store.lent, borne)
}
