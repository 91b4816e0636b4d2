ghost use Rattle.std.specs.Prelude.{◌≡◌, [], ◌∷◌};
ghost use Rattle.rules.specs.Names.{borne, known, names_of};
ghost use Rattle.hir.specs.Tables.{tables};
ghost use Rattle.hir.specs.View.{bears_name, identifier_view, instruction_view, rows, view};

use hir::{Identifier, Instruction, Store};
use kinds::ValueKind;
use names::name_bytes;
use ordered_table::same_bytes;

fn identifier_bears(store: &Store<'_>, identifier: Identifier, name: &[u8]) -> bool
    ensures { result ≡ borne name.now (names_of (identifier_view (view (tables store.now)).text identifier ∷ [])) }
{
    matches!(identifier.given_name(), Some(own) if same_bytes(name, name_bytes(store, own)))
}

fn row_bears(store: &Store<'_>, row: Instruction, name: &[u8]) -> bool
    ensures { result ≡ bears_name (instruction_view (rows (tables store.now)) row) name.now }
{
    (row.has_kind(ValueKind::LoadGlobal) || row.has_kind(ValueKind::StoreGlobal))
        && matches!(row.name, Some(own) if same_bytes(name, name_bytes(store, own)))
}

fn some_identifier_bears(store: &Store<'_>, name: &[u8]) -> bool
    ensures { result ≡ borne name.now (names_of (view (tables store.now)).identifiers) }
{
    store
        .identifiers
        .iter()
        .take(store.counts.identifiers as usize)
        .any(|identifier| identifier_bears(store, *identifier, name))
}

fn some_row_bears(store: &Store<'_>, name: &[u8]) -> bool
    ensures { result ≡ (view (tables store.now)).bears name.now }
{
    store
        .instructions
        .iter()
        .take(store.counts.instructions as usize)
        .any(|row| row_bears(store, *row, name))
}

// Does an identifier, or a used row that loads or stores a global, bear the name?
pub fn is_known(store: &Store<'_>, name: &[u8]) -> bool
    ensures { result ≡ known (view (tables store.now)) name.now }
{
    some_identifier_bears(store, name) || some_row_bears(store, name)
}
