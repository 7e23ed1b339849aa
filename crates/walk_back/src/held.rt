//! Whole levels that are held at once, and the greatest number of them.
ghost use Rattle.std.specs.Prelude.{◌≡◌, ◌+◌, ◌-◌, ◌<◌, ◌≤◌, ◌++◌, IfErr, IfOk, [], ◌∷◌, drop, length, max, slice_index_or, take};

use std::alloc::{AllocError, Global};

/// Levels in the order in which they were added, and how many there were at most. Those of a walk up the whole levels
/// serve all predicates: a `Holder` counts them, too.
#[derive(Drop)]
pub struct Held<T> {
    levels: Vec<T>,
    most: u64,
    ghost enough: { length levels.items ≤ most },
}

impl<T: Drop> Held<T> {
    /// No level yet.
    pub fn new(alloc: Global) -> Held<T>
        ensures levels { result.levels.items ≡ [] }
        ensures most { result.most ≡ 0 }
    {
        Held {
            levels: Vec::new(alloc),
            most: 0,
        }
    }

    /// How many levels are held now.
    pub fn len(&self) -> usize
        ensures { result ≡ length self.now.levels.items }
    {
        self.levels.len()
    }

    /// How many levels were held at once at most.
    pub(crate) fn most(&self) -> u64
        ensures { result ≡ self.now.most }
    {
        self.most
    }

    /// The level that was added last.
    pub fn last(&self) -> &T
        requires { 0 < length self.now.levels.items }
        ensures { (d : T) → result.now ≡ slice_index_or self.now.levels.items (length self.now.levels.items - 1) d }
    {
        &self.levels[self.levels.len() - 1]
    }

    /// The level that was added last but one.
    pub fn last_but_one(&self) -> &T
        requires { 1 < length self.now.levels.items }
        ensures { (d : T) → result.now ≡ slice_index_or self.now.levels.items (length self.now.levels.items - 2) d }
    {
        &self.levels[self.levels.len() - 2]
    }

    /// Holds one more level.
    ///
    /// # Errors
    /// An allocation was refused. Nothing has changed then but that the level is gone.
    pub fn push(&mut self, level: T) -> Result<(), AllocError>
        ensures levels { IfOk result (λ _. self.new.levels.items ≡ self.old.levels.items ++ level ∷ []) }
        ensures most { IfOk result (λ _. self.new.most ≡ max self.old.most (length self.new.levels.items)) }
        ensures refused { IfErr result (λ _. self.new.levels.items ≡ self.old.levels.items) }
        ensures refused_most { IfErr result (λ _. self.new.most ≡ self.old.most) }
    {
        self.levels.push(level)?;
        self.most = self.most.max(self.levels.len() as u64);
        Ok(())
    }

    /// Lets go of the last level but one.
    pub fn drop_last_but_one(&mut self)
        requires { 1 < length self.old.levels.items }
        ensures levels { self.new.levels.items
            ≡ take (length self.old.levels.items - 2) self.old.levels.items
            ++ drop (length self.old.levels.items - 1) self.old.levels.items }
        ensures most { self.new.most ≡ self.old.most }
    {
        let _ = self.levels.remove(self.levels.len() - 2);
    }
}
