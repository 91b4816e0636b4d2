ghost use Rattle.std.specs.Prelude.{◌≡◌};
ghost use Rattle.rules.specs.Names.{is_key, same_bytes};
ghost use Rattle.hir.specs.Tables.{tables};
ghost use Rattle.hir.specs.View.{spelt, spelt_if, view};

use hir::{Name, Store, spelling};
use ordered_table::same_bytes;

fn used_text<'b>(store: &'b Store<'_>) -> &'b [u8]
    ensures { result.now ≡ (view (tables store.now)).text }
{
    let used = store.text.len().min(store.counts.text as usize);
    &store.text[..used]
}

// The bytes of a name, as far as the used text goes.
pub fn name_bytes<'b>(store: &'b Store<'_>, name: Name) -> &'b [u8]
    ensures { result.now ≡ spelt (view (tables store.now)).text name }
{
    spelling(used_text(store), name)
}

pub fn same_name(store: &Store<'_>, a: Name, b: Name) -> bool
    ensures { result ≡ same_bytes (spelt (view (tables store.now)).text a) (spelt (view (tables store.now)).text b) }
{
    same_bytes(name_bytes(store, a), name_bytes(store, b))
}

// Is it the attribute that is not passed on?
pub fn is_key(store: &Store<'_>, name: Option<Name>) -> bool
    ensures { result ≡ is_key (spelt_if (view (tables store.now)).text name) }
{
    matches!(name, Some(name) if same_bytes(name_bytes(store, name), b"key"))
}
