//! The dead ends of a search.
ghost use Rattle.walk_keys.specs.Keys.{AreDigits, key_of};
ghost use Rattle.std.specs.List.{insert};
ghost use Rattle.std.specs.Prelude.{◌≡◌, ◌⊎◌, ◌≤◌, ℕ, [], Contains, IfOk, IsTrue, length};

use pd_clock::Cut;
use std::alloc::{AllocError, Global};
use std::marker::Model;
use walk_keys::Key;

/// Cuts from which a search found no way on, as their keys, which ascend. A key takes less room than a cut.
#[derive(Drop)]
pub(crate) struct DeadEnds<K: Key> {
    keys: Vec<K>,
}

impl<K: Key> Model for DeadEnds<K> {
    ghost use Rattle.std.specs.Prelude.{ℕ, List, map};

    ghost Value = { List ℕ };

    ghost view = { λ d. map K.number d.keys.items };
}

/// How many of the keys, which ascend, are below this one.
fn count_below<K: Key>(keys: &[K], key: K) -> usize
    ensures { result ≤ length keys.now }
{
    let mut low = 0;
    let mut high = keys.len();
    while low < high {
        let middle = low + (high - low) / 2;
        if keys[middle].is_below(key) {
            low = middle + 1;
        } else {
            high = middle;
        }
    }
    low
}

impl<K: Key> DeadEnds<K> {
    /// None yet.
    pub(crate) fn new(alloc: Global) -> DeadEnds<K>
        ensures { result ≡ [] }
    {
        DeadEnds {
            keys: Vec::new(alloc),
        }
    }

    /// How many there are.
    pub(crate) fn len(&self) -> usize
        ensures { result ≡ length self.now }
    {
        self.keys.len()
    }

    /// Whether the cut is found among them.
    pub(crate) fn has(&self, cut: &Cut) -> bool
        requires { length cut.now ≤ K.room }
        ensures { IsTrue result → AreDigits cut.now × Contains self.now (key_of cut.now) }
    {
        let Some(key) = K::pack(cut.counts()) else {
            return false;
        };
        let i = count_below(&self.keys, key);
        i < self.keys.len() && self.keys[i].is_same(key)
    }

    /// Adds a cut, unless one of its counts is no digit of a key.
    ///
    /// # Errors
    /// An allocation was refused.
    pub(crate) fn add(&mut self, cut: &Cut) -> Result<(), AllocError>
        requires { length cut.now ≤ K.room }
        ensures { IfOk result (λ _. (self.new ≡ self.old) ⊎ ((i : ℕ) × (i ≤ length self.old) × AreDigits cut.now
            × (self.new ≡ insert self.old i (key_of cut.now)))) }
    {
        let Some(key) = K::pack(cut.counts()) else {
            return Ok(());
        };
        let i = count_below(&self.keys, key);
        self.keys.insert(i, key)?;
        Ok(())
    }
}
