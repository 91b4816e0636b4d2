ghost use Rattle.std.specs.Prelude.{◌≡◌, ℕ, ◌+◌, ◌-◌, ◌^◌, ◌<◌, ◌≤◌};
ghost use Rattle.rules.specs.Names.{known, next_tag, tag_name};
ghost use Rattle.rules.specs.Emit.{take_tag};
ghost use Rattle.hir.specs.Tables.{tables, with_tag, with_text};
ghost use Rattle.hir.specs.View.{spelt, view};
ghost use Rattle.hir.specs.WellFormed.{NameFits};
ghost use Rattle.hir.specs.Frame.{Becomes};
ghost use Rattle.names.specs.Made.{next_name, TextRoom};

use super::known::is_known;
use arrayvec::ArrayString;
use hir::{FormedStore, Tag};
use itoa::Buffer;
use names::append_text;

// The longest tag: `_temp` and ten digits.
const LONGEST: usize = 15;

#[tactic(auto, using(crate::proofs::Spelling::tag_later, rules::proofs::Numerals::numeral_decimal))]
fn spell_tag(number: u32) -> ArrayString<LONGEST>
    ensures { result.bytes ≡ tag_name number }
{
    let mut tag = ArrayString::new();
    tag.push_str("_temp");
    if number != 1 {
        tag.push_str(Buffer::new().format(number));
    }
    tag
}

// Is the tag of this number borne already?
fn tag_known(store: &FormedStore<'_>, number: u32) -> bool
    ensures { result ≡ known (view (tables store.now)) (tag_name number) }
{
    is_known(&store.lent, spell_tag(number).as_str().as_bytes())
}

// The number of the next tag: the first above the mark whose tag is free.
fn next_tag_number(store: &FormedStore<'_>) -> u32
    requires { store.now.counts.tag_mark < 2 ^ 31 }
    ensures number { result ≡ next_tag (view (tables store.now)) }
    ensures bound { result ≤ store.now.counts.tag_mark + 131072 }
{
    let counts = store.lent.counts;
    let first = counts.tag_mark + 1;
    let last = first + counts.identifiers + counts.instructions + 1;
    (first..last)
        .find(|number| !tag_known(store, *number))
        .unwrap_or(last)
}

// Takes the next tag (the Rust's name for it): the first of `_temp`, `_temp2`, `_temp3`, .. above the mark that nothing bears. It must be put on a
// function or abandoned.
pub fn generate_globally_unique_identifier_name(store: &mut FormedStore<'_>) -> Tag
    requires room { TextRoom (tables store.old) 15 }
    requires mark { store.old.counts.tag_mark < 2 ^ 31 }
    requires counter { store.old.counts.tag_counter < 2 ^ 32 - 1 }
    ensures tag { result ≡ record { number = next_tag (view (tables store.old)); name = next_name (tables store.old) (tag_name (next_tag (view (tables store.old)))) } }
    ensures fits { NameFits store.new.counts result.name }
    ensures spells { spelt (view (tables store.new)).text result.name ≡ tag_name (next_tag (view (tables store.old))) }
    ensures bound { result.number ≤ store.old.counts.tag_mark + 131072 }
    ensures does { Becomes store.old store.new (with_tag (with_text (tables store.old) (tag_name (next_tag (view (tables store.old))))) (next_tag (view (tables store.old)))) (take_tag (view (tables store.old))) }
{
    let number = next_tag_number(store);
    let name = append_text(store, spell_tag(number).as_str().as_bytes());
    store.lent.counts.take_tag(number, name)
}
