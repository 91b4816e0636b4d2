ghost use Rattle.std.specs.Prelude.{◌≡◌, ℕ, ◌+◌, ◌<◌, ◌++◌, length, slice_index_or};
ghost use Rattle.rules.specs.Names.{numeral, temporary};
ghost use Rattle.rules.specs.Props.{promote as promote_rule};
ghost use Rattle.hir.specs.Tables.{tables, Held};
ghost use Rattle.hir.specs.View.{null_identifier, spelt, view};
ghost use Rattle.hir.specs.WellFormed.{NameFits, WellFormed};
ghost use Rattle.hir.specs.Frame.{Becomes};
ghost use Rattle.names.specs.Made.{next_name, with_promoted, with_spare_text, Appended, TextRoom};

use super::digits::write_decimal;
use hir::{FormedStore, IdentifierId, IdentifierName, Name, write_rows};

// A name of these bytes.
pub fn append_text(store: &mut FormedStore<'_>, text: &[u8]) -> Name
    requires room { TextRoom (tables store.old) (length text.now) }
    requires some { 0 < length text.now }
    ensures { Appended store.old store.new text.now result }
{
    let lent = &mut store.lent;
    let name = lent.counts.take_text(text.len() as u32);
    write_rows(lent.text, name.start, text);
    name
}

// A name of a prefix and a number in decimal, as `#t12`.
pub fn append_numbered(store: &mut FormedStore<'_>, prefix: &[u8], number: u32) -> Name
    requires room { TextRoom (tables store.old) (length prefix.now + length (numeral number)) }
    requires some { 0 < length prefix.now }
    ensures { Appended store.old store.new (prefix.now ++ numeral number) result }
{
    let lent = &mut store.lent;
    let at = lent.counts.text as usize;
    let mid = at + prefix.len();
    lent.text[at..mid].copy_from_slice(prefix);
    let end = write_decimal(lent.text, mid, number);
    lent.counts.take_text((end - at) as u32)
}

// Spells a name of another's bytes and a number in decimal, as `x1`, past the used text. It is not taken yet: while it is borne already,
// the next try is written over it.
pub fn spell_renamed(store: &mut FormedStore<'_>, base: Name, number: u32) -> Name
    requires fits { NameFits store.old.counts base }
    requires room { TextRoom (tables store.old) (base.len + length (numeral number)) }
    ensures at { result ≡ next_name (tables store.old) (spelt (view (tables store.old)).text base ++ numeral number) }
    ensures writes { tables store.new ≡ with_spare_text (tables store.old) (spelt (view (tables store.old)).text base ++ numeral number) }
    ensures seen { view (tables store.new) ≡ view (tables store.old) }
    ensures well { WellFormed (tables store.new) }
    ensures held { Held store.new store.old }
{
    let lent = &mut store.lent;
    let at = lent.counts.text as usize;
    let start = base.start as usize;
    let mid = at + base.len as usize;
    lent.text.copy_within(start..start + base.len as usize, at);
    let end = write_decimal(lent.text, mid, number);
    Name {
        start: at as u32,
        len: (end - at) as u32,
    }
}

// Promotes an unnamed identifier to #t and its declaration number; one that has a name keeps it.
pub fn promote(store: &mut FormedStore<'_>, id: IdentifierId)
    requires used { id.0 < store.old.counts.identifiers }
    requires room { TextRoom (tables store.old) (length (temporary (slice_index_or store.old.identifiers.now id.0 null_identifier).declaration)) }
    ensures does { Becomes store.old store.new (with_promoted (tables store.old) id.0) (promote_rule (view (tables store.old)) id.0) }
{
    let identifier = store.lent.identifiers[id.0 as usize];
    if identifier.name.is_none() {
        let name = append_numbered(store, b"#t", identifier.declaration);
        store.lent.identifiers[id.0 as usize].name = Some(IdentifierName::Promoted(name));
    }
}
