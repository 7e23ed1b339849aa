//! A list of keys, which contracts see as the list of their numbers.
ghost use Rattle.std.specs.Prelude.{◌≡◌, ◌<◌, ◌≤◌, List, [], ◌∷◌, ◌++◌, IfOk, drop, length, map, slice_index, slice_set, take};

use std::alloc::{AllocError, Global};
use std::marker::Model;
use walk_keys::Key;

/// A list of keys, which contracts see as the list of their numbers.
#[derive(Drop)]
pub(crate) struct KeyList<K: Key> {
    keys: Vec<K>,
}

impl<K: Key> Model for KeyList<K> {
    ghost use Rattle.std.specs.Prelude.{ℕ, List, map};

    ghost Value = { List ℕ };

    ghost view = { λ l. map K.number l.keys.items };
}

impl<K: Key> KeyList<K> {
    /// These keys.
    pub(crate) fn of(keys: Vec<K>) -> KeyList<K>
        ensures { result ≡ map K.number keys.items }
    {
        KeyList { keys }
    }

    /// No key yet, and room for this many.
    pub(crate) fn with_room(alloc: Global, room: usize) -> Result<KeyList<K>, AllocError>
        ensures { IfOk result (λ list. list ≡ []) }
    {
        Ok(KeyList {
            keys: Vec::with_capacity(alloc, room)?,
        })
    }

    /// How many keys there are.
    pub(crate) fn len(&self) -> usize
        ensures { result ≡ length self.now }
    {
        self.keys.len()
    }

    /// The key with this index.
    pub(crate) fn get(&self, i: usize) -> K
        requires { i < length self.now }
        ensures { K.number result ≡ slice_index self.now i }
    {
        self.keys[i]
    }

    /// Puts a key at the end.
    pub(crate) fn push(&mut self, key: K) -> Result<(), AllocError>
        ensures { IfOk result (λ _. self.new ≡ self.old ++ K.number key ∷ []) }
    {
        self.keys.push(key)?;
        Ok(())
    }

    /// Puts the keys of another list from this index on at the end.
    pub(crate) fn extend(&mut self, other: &KeyList<K>, from: usize) -> Result<(), AllocError>
        requires { from ≤ length other.now }
        ensures { IfOk result (λ _. self.new ≡ self.old ++ drop from other.now) }
    {
        self.keys.extend_from_slice(&other.keys[from..])?;
        Ok(())
    }

    /// Writes the key with the index `from` at the index `to`.
    pub(crate) fn copy_within(&mut self, from: usize, to: usize)
        requires from { from < length self.old }
        requires to { to < length self.old }
        ensures { self.new ≡ slice_set self.old to (slice_index self.old from) }
    {
        self.keys[to] = self.keys[from];
    }

    /// Keeps the first keys, this many.
    pub(crate) fn truncate(&mut self, count: usize)
        ensures { self.new ≡ take count self.old }
    {
        self.keys.truncate(count);
    }

    /// The same list once more.
    pub(crate) fn copy(&self, alloc: Global) -> Result<KeyList<K>, AllocError>
        ensures { IfOk result (λ copy. copy ≡ self.now) }
    {
        let mut copy = KeyList::with_room(alloc, self.len())?;
        copy.extend(self, 0)?;
        Ok(copy)
    }
}
