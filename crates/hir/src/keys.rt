// The two kinds of keys of the ordered table: identifiers by their numbers, and names by their bytes in a text.

ghost use Rattle.std.specs.Prelude.{◌≡◌};
ghost use Rattle.hir.specs.Keys.{same_number, same_spelling};
ghost use Rattle.hir.specs.View.{spelt};
ghost use Rattle.std.proofs.Common.{rules};
ghost use Rattle.rules.proofs.Naming.{same_refl};
ghost use Rattle.ordered_table.proofs.SameBytes.{same_flip, same_chain};

use super::rows::{IdentifierId, Name};
use ordered_table::{Key, same_bytes};

impl Key for IdentifierId {
    ghost alike = { λ _ a b. same_number a b };

    ghost reflexive = { Prim.search rules };

    ghost symmetric = { Prim.search rules };

    ghost transitive = { Prim.search rules };

    fn same(&self, other: &IdentifierId, _text: &[u8]) -> bool {
        self == other
    }
}

impl Key for Name {
    ghost alike = { same_spelling };

    ghost reflexive = { λ text a. same_refl (spelt text a) };

    ghost symmetric = { λ text a b. same_flip (spelt text a) (spelt text b) };

    ghost transitive = { λ text a b c. same_chain (spelt text a) (spelt text b) (spelt text c) };

    fn same(&self, other: &Name, text: &[u8]) -> bool {
        same_bytes(spelling(text, *self), spelling(text, *other))
    }
}

// The bytes of a name, as far as the text goes.
pub fn spelling(text: &[u8], name: Name) -> &[u8]
    ensures { result.now ≡ spelt text.now name }
{
    let start = name.start as usize;
    if start >= text.len() {
        return &text[0..0];
    }
    let len = name.len as usize;
    if len >= text.len() - start {
        return &text[start..];
    }
    &text[start..start + len]
}
