//! The keys of a level, of the kind that has room for its processes.
ghost use Rattle.walk_keys.specs.Keys.{Ascending};
ghost use Rattle.pd_level.specs.Levels.{FitsKind, is_single, kept_by, numbers};
ghost use Rattle.std.specs.Prelude.{◌≡◌, ◌<◌, ◌↔◌, ◌⊎◌, ℕ, [], ◌∷◌, ◌++◌, Contains, IfOk, length};

use super::keep::keep_marked;
use super::list::KeyList;
use super::merge::joined;
use std::alloc::{AllocError, Global};
use walk_keys::{Key, Pair, SINGLE_LIMIT};

/// The keys of a level: one number each if it has room for the counts of all processes, and else a pair of numbers.
#[derive(Drop)]
pub(crate) enum Keys {
    Single(KeyList<u128>),
    Pairs(KeyList<Pair>),
}

impl Keys {
    /// No key yet, and room for this many, of this many counts each.
    pub(crate) fn with_room(
        alloc: Global,
        processes: usize,
        room: usize,
    ) -> Result<Keys, AllocError>
        ensures none { IfOk result (λ keys. numbers keys ≡ []) }
        ensures kind { IfOk result (λ keys. FitsKind processes (is_single keys)) }
    {
        if processes <= SINGLE_LIMIT {
            return Ok(Keys::Single(KeyList::with_room(alloc, room)?));
        }
        Ok(Keys::Pairs(KeyList::with_room(alloc, room)?))
    }

    /// Puts the key of no event at the end.
    pub(crate) fn push_none(&mut self) -> Result<(), AllocError>
        ensures numbers { IfOk result (λ _. numbers self.new ≡ numbers self.old ++ 0 ∷ []) }
        ensures kind { is_single self.new ≡ is_single self.old }
    {
        match self {
            Keys::Single(keys) => keys.push(u128::none()),
            Keys::Pairs(keys) => keys.push(Pair::none()),
        }
    }

    /// How many keys there are.
    pub(crate) fn len(&self) -> usize
        ensures { result ≡ length (numbers self.now) }
    {
        match self {
            Keys::Single(keys) => keys.len(),
            Keys::Pairs(keys) => keys.len(),
        }
    }

    /// The same keys once more.
    pub(crate) fn copy(&self, alloc: Global) -> Result<Keys, AllocError>
        ensures numbers { IfOk result (λ copy. numbers copy ≡ numbers self.now) }
        ensures kind { IfOk result (λ copy. is_single copy ≡ is_single self.now) }
    {
        match self {
            Keys::Single(keys) => Ok(Keys::Single(keys.copy(alloc)?)),
            Keys::Pairs(keys) => Ok(Keys::Pairs(keys.copy(alloc)?)),
        }
    }

    /// The keys that stand in one of two ascending lists or in both, each once and ascending. If all of the last ones
    /// come after the first ones, they are written at their end. Two lists that aren't empty are of one kind.
    pub(crate) fn with(self, alloc: Global, last: &Keys) -> Result<Keys, AllocError>
        requires first { Ascending (numbers self) }
        requires last { Ascending (numbers last.now) }
        requires kinds { 0 < length (numbers self) → 0 < length (numbers last.now)
            → is_single self ≡ is_single last.now }
        ensures ascending { IfOk result (λ both. Ascending (numbers both)) }
        ensures just { IfOk result (λ both. (x : ℕ) → Contains (numbers both) x
            ↔ (Contains (numbers self) x ⊎ Contains (numbers last.now) x)) }
        ensures first { IfOk result (λ both. 0 < length (numbers self) → is_single both ≡ is_single self) }
        ensures last { IfOk result (λ both. 0 < length (numbers last.now) → is_single both ≡ is_single last.now) }
    {
        match self {
            Keys::Single(first) => match last {
                Keys::Single(last) => Ok(Keys::Single(joined(alloc, first, last)?)),
                Keys::Pairs(last) => {
                    if last.len() == 0 {
                        return Ok(Keys::Single(first));
                    }
                    Ok(Keys::Pairs(last.copy(alloc)?))
                }
            },
            Keys::Pairs(first) => match last {
                Keys::Pairs(last) => Ok(Keys::Pairs(joined(alloc, first, last)?)),
                Keys::Single(last) => {
                    if last.len() == 0 {
                        return Ok(Keys::Pairs(first));
                    }
                    Ok(Keys::Single(last.copy(alloc)?))
                }
            },
        }
    }

    /// Keeps the keys whose mark is the one that is wanted, in their order. There is one mark for each key.
    pub(crate) fn keep(&mut self, marks: &[bool], wanted: bool)
        requires { length marks.now ≡ length (numbers self.old) }
        ensures numbers { numbers self.new ≡ kept_by wanted marks.now (numbers self.old) }
        ensures kind { is_single self.new ≡ is_single self.old }
    {
        match self {
            Keys::Single(keys) => keep_marked(keys, marks, wanted),
            Keys::Pairs(keys) => keep_marked(keys, marks, wanted),
        }
    }
}
