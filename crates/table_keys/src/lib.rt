//! Ordered tables over identifiers and over names, in the words of the rules.
#![tactic(auto)]

ghost use Rattle.std.specs.Prelude.{◌≡◌, map};
ghost use Rattle.hir.specs.Keys.{same_number};
ghost use Rattle.hir.specs.View.{spelt};
ghost use Rattle.ordered_table.specs.Entries.{look, keys};
ghost use Rattle.ordered_table.specs.Table.{entries_of};
ghost use Rattle.rules.specs.Names.{borne};
ghost use Rattle.std.specs.Option.{option_map};
ghost use Rattle.table_keys.specs.Laws.{BindsByRules, SeenByRules};

use hir::{IdentifierId, Name};
use ordered_table::OrderedTable;

// The value of an identifier; no text is needed to compare numbers. Tables over identifiers are those of the rules.
#[tactic(auto, using(crate::proofs::ByRules::binds_by_rules))]
pub fn value_of<'t, V: Copy>(
    table: &'t OrderedTable<'_, IdentifierId, V>,
    id: IdentifierId,
) -> Option<&'t V>
    ensures value { option_map (λ x. x.now) result ≡ look same_number (entries_of table.now) id }
    ensures rules { BindsByRules V }
{
    table.get(&id, b"")
}

// Does the table have a name of these bytes? Tables over names tell it as the rules do.
#[tactic(auto, using(crate::proofs::ByRules::among_bytes, crate::proofs::ByRules::seen_by_rules))]
pub fn is_seen<V: Copy>(table: &OrderedTable<'_, Name, V>, name: Name, text: &[u8]) -> bool
    ensures seen { result ≡ borne (spelt text.now name) (map (spelt text.now) (keys (entries_of table.now))) }
    ensures rules { SeenByRules V text.now }
{
    table.contains_key(&name, text)
}
