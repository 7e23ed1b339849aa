//! The levels that are held at once for a predicate, and the greatest number of them.
ghost use Rattle.std.specs.Prelude.{◌≡◌, ◌+◌, ◌-◌, ◌<◌, ◌≤◌, ◌++◌, IfErr, IfOk, [], ◌∷◌, drop, length, max, slice_index_or, take};
ghost use Rattle.pd_level.specs.Levels.{Levelled};

use super::{Count, Held};
use pd_level::Level;
use std::alloc::{AllocError, Global};

/// The levels that are held at once for a predicate: lists of cuts that are kept, in the order in which they came;
/// lists that are walked, from one to the next; and whole levels, which a `Held` has for all predicates. They are
/// counted together, and no call but those of this type changes the count.
#[derive(Drop)]
pub struct Holder {
    levels: Vec<Level>,
    walked: Vec<Level>,
    beside: u64,
    most: u64,
    ghost enough: { length levels.items + length walked.items + beside ≤ most },
}

impl Holder {
    /// No level yet.
    pub fn new(alloc: Global) -> Holder
        ensures levels { result.levels.items ≡ [] }
        ensures walked { result.walked.items ≡ [] }
        ensures beside { result.beside ≡ 0 }
        ensures most { result.most ≡ 0 }
    {
        Holder {
            levels: Vec::new(alloc),
            walked: Vec::new(alloc),
            beside: 0,
            most: 0,
        }
    }

    /// How many levels were held at once at most. The holder is used up, and its levels are let go of.
    pub fn count(self) -> Count
        ensures { result.most ≡ self.most }
    {
        Count::of(self.most)
    }

    /// Counts the whole levels that are held now, in place of those that it counted before, and as many as were held at
    /// once.
    ///
    /// # Errors
    /// There would be more levels than a `u64` counts.
    pub fn stand_on<T: Drop>(&mut self, wholes: &Held<T>) -> Result<(), AllocError>
        ensures levels { self.new.levels.items ≡ self.old.levels.items }
        ensures walked { self.new.walked.items ≡ self.old.walked.items }
        ensures beside { IfOk result (λ _. self.new.beside ≡ length wholes.now.levels.items) }
        ensures most { IfOk result (λ _. self.new.most ≡ max (max self.old.most wholes.now.most)
            (length self.old.levels.items + length self.old.walked.items + length wholes.now.levels.items)) }
    {
        let own = self.levels.len() as u64 + self.walked.len() as u64;
        let Some(all) = own.checked_add(wholes.len() as u64) else {
            return Err(AllocError);
        };
        self.beside = wholes.len() as u64;
        self.most = self.most.max(wholes.most()).max(all);
        Ok(())
    }

    /// How many lists are kept now.
    pub fn len(&self) -> usize
        ensures { result ≡ length self.now.levels.items }
    {
        self.levels.len()
    }

    /// The list that was kept last.
    pub fn last(&self) -> &Level
        requires { 0 < length self.now.levels.items }
        ensures { (d : Levelled) → result.now
            ≡ slice_index_or self.now.levels.items (length self.now.levels.items - 1) d }
    {
        &self.levels[self.levels.len() - 1]
    }

    /// Keeps one more list.
    ///
    /// # Errors
    /// An allocation was refused, or there would be more levels than a `u64` counts. Nothing has changed then but that
    /// the list is gone.
    pub fn push(&mut self, level: Level) -> Result<(), AllocError>
        ensures levels { IfOk result (λ _. self.new.levels.items ≡ self.old.levels.items ++ level ∷ []) }
        ensures walked { self.new.walked.items ≡ self.old.walked.items }
        ensures beside { self.new.beside ≡ self.old.beside }
        ensures most { IfOk result (λ _. self.new.most ≡ max self.old.most
            (length self.new.levels.items + length self.old.walked.items + self.old.beside)) }
        ensures refused { IfErr result (λ _. self.new.levels.items ≡ self.old.levels.items) }
        ensures refused_most { IfErr result (λ _. self.new.most ≡ self.old.most) }
    {
        if self.most == u64::MAX {
            return Err(AllocError);
        }
        self.levels.push(level)?;
        let all = self.levels.len() as u64 + self.walked.len() as u64 + self.beside;
        self.most = self.most.max(all);
        Ok(())
    }

    /// Lets go of the list that was kept last, if there is one.
    pub fn drop_last(&mut self)
        ensures levels { self.new.levels.items
            ≡ take (length self.old.levels.items - 1) self.old.levels.items }
        ensures walked { self.new.walked.items ≡ self.old.walked.items }
        ensures beside { self.new.beside ≡ self.old.beside }
        ensures most { self.new.most ≡ self.old.most }
    {
        let _ = self.levels.pop();
    }

    /// The list that is walked, the last if they are two.
    pub fn at(&self) -> &Level
        requires { 0 < length self.now.walked.items }
        ensures { (d : Levelled) → result.now
            ≡ slice_index_or self.now.walked.items (length self.now.walked.items - 1) d }
    {
        &self.walked[self.walked.len() - 1]
    }

    /// Walks on to one more list. The one before it stays.
    ///
    /// # Errors
    /// An allocation was refused, or there would be more levels than a `u64` counts. Nothing has changed then but that
    /// the list is gone.
    pub fn walk(&mut self, level: Level) -> Result<(), AllocError>
        ensures walked { IfOk result (λ _. self.new.walked.items ≡ self.old.walked.items ++ level ∷ []) }
        ensures levels { self.new.levels.items ≡ self.old.levels.items }
        ensures beside { self.new.beside ≡ self.old.beside }
        ensures most { IfOk result (λ _. self.new.most ≡ max self.old.most
            (length self.old.levels.items + length self.new.walked.items + self.old.beside)) }
        ensures refused { IfErr result (λ _. self.new.walked.items ≡ self.old.walked.items) }
        ensures refused_most { IfErr result (λ _. self.new.most ≡ self.old.most) }
    {
        if self.most == u64::MAX {
            return Err(AllocError);
        }
        self.walked.push(level)?;
        let all = self.levels.len() as u64 + self.walked.len() as u64 + self.beside;
        self.most = self.most.max(all);
        Ok(())
    }

    /// Lets go of the list before the one that is walked.
    pub fn leave(&mut self)
        requires { 1 < length self.old.walked.items }
        ensures walked { self.new.walked.items
            ≡ take (length self.old.walked.items - 2) self.old.walked.items
            ++ drop (length self.old.walked.items - 1) self.old.walked.items }
        ensures levels { self.new.levels.items ≡ self.old.levels.items }
        ensures beside { self.new.beside ≡ self.old.beside }
        ensures most { self.new.most ≡ self.old.most }
    {
        let _ = self.walked.remove(self.walked.len() - 2);
    }

    /// Lets go of the lists that are walked.
    pub fn end_walk(&mut self)
        ensures walked { self.new.walked.items ≡ [] }
        ensures levels { self.new.levels.items ≡ self.old.levels.items }
        ensures beside { self.new.beside ≡ self.old.beside }
        ensures most { self.new.most ≡ self.old.most }
    {
        self.walked.clear();
    }
}
