ghost use Rattle.std.specs.Prelude.{◌≡◌, ℕ, List, [], length, position};
ghost use Rattle.ordered_table.specs.Entries.{look, keys, among, Ordered};
ghost use Rattle.ordered_table.specs.Table.{entries_of, Insertion};
ghost use Rattle.std.specs.Option.{option_map};

use super::{Entry, Full, Key, OrderedTable};

impl<'a, K: Key + Copy, V: Copy> OrderedTable<'a, K, V> {
    // A table over these entries, with none of them taken.
    pub fn new(entries: &'a mut [Entry<K, V>]) -> OrderedTable<'a, K, V>
        ensures lender { result.entries.ghost_name ≡ entries.entry.ghost_name }
        ensures holds { entries_of result ≡ [] }
        ensures spare { result.entries.now ≡ entries.old }
        ensures ordered { (text : List ℕ) → Ordered K V (K.Key.alike text) }
    {
        OrderedTable { entries, len: 0 }
    }

    // How many keys the table has.
    pub fn len(&self) -> usize
        ensures { result ≡ length (entries_of self.now) }
    {
        self.entries().len()
    }

    // The entries in the order in which their keys were first inserted.
    pub fn entries(&self) -> &[Entry<K, V>]
        ensures { result.now ≡ entries_of self.now }
    {
        &self.entries[..self.len]
    }

    // Where the key stands among the entries.
    fn index_of(&self, key: &K, text: &[u8]) -> Option<usize>
        ensures { result ≡ position (λ x. K.Key.alike text.now x.key key.now) (entries_of self.now) }
    {
        self.entries()
            .iter()
            .position(|entry| entry.key.same(key, text))
    }

    // The value under a key.
    pub fn get(&self, key: &K, text: &[u8]) -> Option<&V>
        ensures { option_map (λ x. x.now) result ≡ look (K.Key.alike text.now) (entries_of self.now) key.now }
    {
        let i = self.index_of(key, text)?;
        Some(&self.entries()[i].value)
    }

    // Is the key in the table?
    #[tactic(auto, using(crate::proofs::Places::among_keys))]
    pub fn contains_key(&self, key: &K, text: &[u8]) -> bool
        ensures { result ≡ among (K.Key.alike text.now) (keys (entries_of self.now)) key.now }
    {
        self.index_of(key, text).is_some()
    }

    // A value under a key: in the old position of a key that is there, else at the end. Answers the value that the key had. A new key
    // for a full table is refused, and nothing is stored.
    pub fn insert(&mut self, key: K, value: V, text: &[u8]) -> Result<Option<V>, Full>
        ensures lender { self.new.entries.ghost_name ≡ self.old.entries.ghost_name }
        ensures inserted { Insertion (K.Key.alike text.now) self.old key value result self.new }
    {
        match self.index_of(&key, text) {
            Some(i) => {
                let old = self.entries[i].value;
                self.entries[i].value = value;
                Ok(Some(old))
            }
            None if self.len == self.entries.len() => Err(Full),
            None => {
                self.entries[self.len] = Entry { key, value };
                self.len += 1;
                Ok(None)
            }
        }
    }
}
