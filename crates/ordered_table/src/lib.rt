//! One ordered table for every kind of key, over memory that the caller lends: the source's `OrderedMap` and `FxIndexMap`.
//! It keeps distinct keys in the order of their first insertion.
#![tactic(auto)]

ghost use Rattle.std.specs.Prelude.{◌≤◌, length};

mod bytes;
mod key_kinds;
mod operations;

pub use bytes::same_bytes;
pub use key_kinds::Key;

#[derive(Clone, Copy)]
pub struct Entry<K, V> {
    pub key: K,
    pub value: V,
}

// The first `len` of the lent entries are the table's; the others are spare. The caller lends the memory, since the pass has no heap: so a
// slice with a length stands here, and no map or `Vec`.
#[derive(Drop)]
pub struct OrderedTable<'a, K, V> {
    entries: &'a mut [Entry<K, V>],
    len: usize,
    ghost fits: { len ≤ length entries.now },
}

// The answer to a new key when every lent entry is taken.
#[derive(Clone, Copy, Debug, PartialEq, Eq)]
pub struct Full;
