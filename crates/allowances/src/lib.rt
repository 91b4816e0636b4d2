//! Refusal 9: how much an outline may take of each table, counted on the functions that it walks.
#![tactic(auto)]

ghost use Rattle.std.specs.Prelude.{◌≡◌, ◌^◌, ◌<◌, ◌≤◌, MatchBool, MatchOption};
ghost use Rattle.rules.specs.Drawn.{inner};
ghost use Rattle.laws.specs.Allowances.{block_counts, function_counts, halved, plus, row_counts, rows_counts, walk_counts};
ghost use Rattle.laws.specs.Tallies.{counts_of, Tallied};
ghost use Rattle.hir.specs.Tables.{tables};
ghost use Rattle.hir.specs.View.{instruction_at, rows, view};
ghost use Rattle.reading.specs.Stored.{function_seen, rows_in};
ghost use Rattle.refusals.specs.Conditions.{Spare};
ghost use Rattle.allowances.specs.Places.{one_element, place_counts, places_counts};
ghost use Rattle.allowances.specs.Rooms.{Allowable, Allowed, HasRoom};
ghost use Rattle.allowances.specs.Tallies.{walks_counts};

use hir::{LIMITS, Place, Store};
use kinds::{FunctionType, Role, ValueKind};
pub use laws::allowances::Tally;
use laws::allowances::pairs_of;
use reading::{RowList, StoredFunction};
use store_form::has_room;

// The most that an outline takes of each table.
#[derive(Clone, Copy)]
pub struct Allowances {
    pub identifiers: u64,
    pub instructions: u64,
    pub numbers: u64,
    pub places: u64,
    pub blocks: u64,
    pub functions: u64,
    pub text: u64,
}

impl Allowances {
    // There are as many spare rows in each table. The form of a store is tried by the same rows with nothing more, before there is anything
    // to allow, and each of the two has a deliberate edit of its own.
    pub fn fit(self, store: &Store<'_>) -> bool
        ensures { MatchBool result (HasRoom (tables store.now) self) (HasRoom (tables store.now) self → ⊥) }
    {
        let used = store.counts;
        let tables = [
            (used.text, self.text, store.text.len(), LIMITS.text),
            (
                used.identifiers,
                self.identifiers,
                store.identifiers.len(),
                LIMITS.identifiers,
            ),
            (used.places, self.places, store.places.len(), LIMITS.places),
            (
                used.instructions,
                self.instructions,
                store.instructions.len(),
                LIMITS.instructions,
            ),
            (
                used.numbers,
                self.numbers,
                store.numbers.len(),
                LIMITS.numbers,
            ),
            (used.blocks, self.blocks, store.blocks.len(), LIMITS.blocks),
            (
                used.functions,
                self.functions,
                store.functions.len(),
                LIMITS.functions,
            ),
        ];
        tables.iter().all(|(used, more, rows, limit)| has_room(*used, *more, *rows, *limit as u64))
    }
}

// What a tally allows of each table, summed in 64 bits. None only where an allowance passes them.
pub fn allowances_of(tally: Tally) -> Option<Allowances>
    ensures { MatchOption result (Allowable (counts_of tally) → ⊥) (λ a. Allowed (counts_of tally) a) }
{
    let entries = tally.attributes.checked_add(tally.children)?;
    Some(Allowances {
        identifiers: entries.checked_add(tally.pairs.checked_mul(4)?)?,
        instructions: tally
            .pairs
            .checked_mul(3)?
            .checked_add(tally.elements.checked_mul(2)?)?,
        numbers: tally
            .pairs
            .checked_add(tally.elements.checked_mul(2)?)?
            .checked_add(tally.listed)?,
        places: tally
            .pairs
            .checked_mul(4)?
            .checked_add(tally.elements)?
            .checked_add(entries.checked_mul(3)?)?,
        blocks: tally.pairs,
        functions: tally.pairs,
        text: tally
            .letters
            .checked_add(tally.attributes.checked_mul(10)?)?
            .checked_add(tally.children.checked_mul(23)?)?
            .checked_add(tally.pairs.checked_mul(39)?)?,
    })
}

// There are as many spare rows as the walk from a function may take.
pub fn enough_spare(function: StoredFunction<'_, '_>, depth: u32) -> bool
    ensures { MatchBool result (Spare (tables function.entry.store.now) (walk_counts depth (view (tables function.entry.store.now)) function.entry.id.0)) (Spare (tables function.entry.store.now) (walk_counts depth (view (tables function.entry.store.now)) function.entry.id.0) → ⊥) }
{
    let Some(allowed) = walk_tally(function, depth).and_then(allowances_of) else {
        return false;
    };
    allowed.fit(function.store)
}

// The functions on the walk from a function, together. None only where a sum passes 64 bits. Blocks are gone through by number, since a
// list is asked for by its block's number.
#[cycle(walk_tally)]
pub fn walk_tally(function: StoredFunction<'_, '_>, depth: u32) -> Option<Tally>
    ensures { Tallied result (walk_counts depth (view (tables function.entry.store.now)) function.entry.id.0) }
{
    if depth == 0 {
        return Some(Tally::default());
    }
    let mut sum = function_tally(function)?;
    for k in 0..function.row().blocks.count {
        sum = sum.checked_add(inner_tally(function.list(k), depth - 1)?)?;
    }
    Some(sum)
}

// The walks from the inner functions of a list's rows. The outline goes from the last row to the first; the sum is the same.
#[cycle(walk_tally)]
fn inner_tally(list: RowList<'_, '_>, depth: u32) -> Option<Tally>
    ensures { Tallied result (walks_counts depth (view (tables list.entry.store.now)) (inner (rows_in list.entry))) }
{
    let mut sum = Tally::default();
    for number in list.numbers {
        let row = list.row(*number);
        if row.has_kind(ValueKind::FunctionExpression) {
            let inner = StoredFunction {
                store: list.store,
                id: row.function,
            };
            sum = sum.checked_add(walk_tally(inner, depth)?)?;
        }
    }
    Some(sum)
}

#[tactic(auto, using(crate::proofs::Blocks::first_block))]
fn function_tally(function: StoredFunction<'_, '_>) -> Option<Tally>
    ensures { Tallied result (function_counts (function_seen function.entry)) }
{
    let row = function.row();
    let mut sum = Tally::default();
    if row.has_type(FunctionType::Component) {
        return Some(sum);
    }
    for k in 0..row.blocks.count {
        sum = sum.checked_add(block_tally(function.list(k))?)?;
    }
    Some(sum)
}

fn block_tally(list: RowList<'_, '_>) -> Option<Tally>
    ensures { Tallied result (block_counts (rows_in list.entry)) }
{
    let sum = rows_tally(list)?;
    sum.checked_add(halved(sum.elements, list.numbers.len() as u64)?)
}

// The groups that there can be among so many elements, and the new list's rows.
fn halved(elements: u64, rows: u64) -> Option<Tally>
    ensures { Tallied result (halved elements rows) }
{
    let pairs = pairs_of(elements);
    let listed = if elements < 2 {
        0
    } else {
        rows.checked_add(pairs)?
    };
    Some(Tally {
        pairs,
        listed,
        ..Tally::default()
    })
}

fn rows_tally(list: RowList<'_, '_>) -> Option<Tally>
    ensures { Tallied result (rows_counts (rows_in list.entry)) }
{
    let mut sum = Tally::default();
    for number in list.numbers {
        sum = sum.checked_add(row_tally(list, *number)?)?;
    }
    Some(sum)
}

fn row_tally(list: RowList<'_, '_>, number: u32) -> Option<Tally>
    requires { number < list.store.now.counts.instructions }
    ensures { Tallied result (row_counts (instruction_at (rows (tables list.entry.store.now)) number)) }
{
    if !list.row(number).has_kind(ValueKind::JsxExpression) {
        return Some(Tally::default());
    }
    element_tally(list.places(number))
}

// An element with these places.
fn element_tally(places: &[Place]) -> Option<Tally>
    ensures { Tallied result (plus one_element (places_counts places.now)) }
{
    let mut sum = Tally {
        elements: 1,
        ..Tally::default()
    };
    for place in places {
        sum = sum.checked_add(place_tally(place))?;
    }
    Some(sum)
}

// An attribute, with the bytes of its name, a child, or neither.
fn place_tally(place: &Place) -> Tally
    ensures { counts_of result ≡ place_counts place.now }
{
    match Role::try_from(place.role) {
        Ok(Role::Attribute) => Tally {
            attributes: 1,
            letters: place.name.map_or(0, |name| name.len as u64),
            ..Tally::default()
        },
        Ok(Role::Child) => Tally {
            children: 1,
            ..Tally::default()
        },
        _ => Tally::default(),
    }
}
