//! A level: the consistent cuts with one number of events.
ghost use Rattle.def_model.specs.Answers.{IsListOf, MoreThan};
ghost use Rattle.def_model.specs.Cuts.{IsConsistent, IsNextOf, empty_cut};
ghost use Rattle.def_model.specs.Predicates.{test_of};
ghost use Rattle.pd_level.specs.Levels.{HasRoom, IsBetween, IsInEither, IsKept, cuts_of, kept_by, numbers};
ghost use Rattle.pd_pred.specs.Views.{predicate_view};
ghost use Rattle.std.specs.Prelude.{◌≡◌, ◌+◌, ◌<◌, ◌≤◌, ◌==◌, ◌↔◌, All, Contains, IfErr, IfOk, IfSome, IsTrue, [], ◌∷◌, Some, length, min, slice_get};

use super::LevelFault;
use super::keys::Keys;
use super::read::{cut_of, has, holds_at};
use super::step::more_by_any;
use pd_clock::{Computation, Cut};
use pd_pred::Pred;
use std::alloc::{AllocError, Global};
use std::marker::Model;

/// A level: its number and its cuts, each as a key whose digits are the counts.
#[derive(Drop)]
pub struct Level {
    number: u64,
    processes: usize,
    keys: Keys,
}

impl Model for Level {
    ghost use Rattle.pd_level.specs.Levels.{HasRoom, IsKept, Levelled, cuts_of, numbers};

    ghost Value = { Levelled };

    ghost view = { λ l. record { number = l.number; cuts = cuts_of l.processes (numbers l.keys) } };

    ghost invariant = { λ l. IsKept l.processes (numbers l.keys) × HasRoom l.processes l.keys };
}

impl Level {
    /// Level 0, which has the empty cut alone.
    ///
    /// # Errors
    /// An allocation was refused.
    pub fn first(alloc: Global, computation: &Computation<'_>) -> Result<Level, AllocError>
        ensures { IfOk result (λ level. level ≡ record { number = 0; cuts = empty_cut computation.now.events ∷ [] }) }
    {
        computation.limits();
        let processes = computation.processes();
        let mut keys = Keys::with_room(alloc, processes, 1)?;
        keys.push_none()?;
        Ok(Level {
            number: 0,
            processes,
            keys,
        })
    }

    /// The cuts that have one event more than one of the level's, in lexicographic order: at most `width` of them. The
    /// number stays at the greatest `u64` once it is there.
    ///
    /// # Errors
    /// `Wide` says that there are more, and `Memory` that an allocation was refused.
    pub fn next(
        alloc: Global,
        computation: &Computation<'_>,
        level: &Level,
        width: u64,
    ) -> Result<Level, LevelFault>
        requires cuts { All (IsConsistent computation.now.events) level.now.cuts }
        requires wide { 1 ≤ width }
        ensures list { IfOk result (λ next. IsListOf (IsNextOf computation.now.events level.now.cuts) next.cuts) }
        ensures narrow { IfOk result (λ next. length next.cuts ≤ width) }
        ensures number { IfOk result (λ next. next.number ≡ min (level.now.number + 1) 18446744073709551615) }
        ensures wide { result ≡ Err LevelFault.Wide → MoreThan width (IsNextOf computation.now.events level.now.cuts) }
    {
        let next = Level::successors(alloc, computation, level)?;
        next.within(width)
    }

    /// The cuts that have one event more than one of the level's, in lexicographic order, however many they are. The
    /// number stays at the greatest `u64` once it is there.
    ///
    /// # Errors
    /// An allocation was refused.
    pub fn successors(
        alloc: Global,
        computation: &Computation<'_>,
        level: &Level,
    ) -> Result<Level, AllocError>
        requires cuts { All (IsConsistent computation.now.events) level.now.cuts }
        ensures list { IfOk result (λ next. IsListOf (IsNextOf computation.now.events level.now.cuts) next.cuts) }
        ensures number { IfOk result (λ next. next.number ≡ min (level.now.number + 1) 18446744073709551615) }
    {
        Level::successors_between(alloc, computation, level, 0, level.len())
    }

    /// Those of the cuts that have one event more than one of the level's that lie between two of the level's: not
    /// before the cut with the index `from`, and before the one with the index `to`, both from 0. If `from` is 0 there
    /// is no first bound, and no last one if `to` is the number of cuts or more. They are in lexicographic order,
    /// however many they are. The number stays at the greatest `u64` once it is there.
    ///
    /// # Errors
    /// An allocation was refused.
    pub fn successors_between(
        alloc: Global,
        computation: &Computation<'_>,
        level: &Level,
        from: usize,
        to: usize,
    ) -> Result<Level, AllocError>
        requires cuts { All (IsConsistent computation.now.events) level.now.cuts }
        requires from { 0 < from → from < length level.now.cuts }
        ensures list { IfOk result (λ next. IsListOf (λ cut. IsNextOf computation.now.events level.now.cuts cut
            × IsBetween level.now.cuts from to cut) next.cuts) }
        ensures number { IfOk result (λ next. next.number ≡ min (level.now.number + 1) 18446744073709551615) }
    {
        computation.limits();
        let keys = match &level.keys {
            Keys::Single(keys) => Keys::Single(more_by_any(alloc, computation, keys, from, to)?),
            Keys::Pairs(keys) => Keys::Pairs(more_by_any(alloc, computation, keys, from, to)?),
        };
        Ok(Level {
            number: level.number.saturating_add(1),
            processes: computation.processes(),
            keys,
        })
    }

    /// The same level, or `Wide` exactly if it has more than `width` cuts. It takes no memory.
    pub fn within(self, width: u64) -> Result<Level, LevelFault>
        ensures level { IfOk result (λ level. level ≡ self) }
        ensures narrow { IfOk result (λ level. length level.cuts ≤ width) }
        ensures wide { IfErr result (λ fault. (fault ≡ LevelFault.Wide) × (width < length self.cuts)) }
    {
        if self.keys.len() as u64 > width {
            return Err(LevelFault::Wide);
        }
        Ok(self)
    }

    /// The cuts that stand in one of two levels or in both, each once and in lexicographic order. The number is that of
    /// the first level. If all cuts of the last level come after those of the first one, they are written at their end.
    ///
    /// # Errors
    /// An allocation was refused.
    pub fn with_cuts_of(
        self,
        alloc: Global,
        computation: &Computation<'_>,
        last: &Level,
    ) -> Result<Level, AllocError>
        requires first { All (IsConsistent computation.now.events) self.cuts }
        requires last { All (IsConsistent computation.now.events) last.now.cuts }
        ensures list { IfOk result (λ both. IsListOf (IsInEither self.cuts last.now.cuts) both.cuts) }
        ensures number { IfOk result (λ both. both.number ≡ self.number) }
    {
        computation.limits();
        let Level {
            number,
            processes: _,
            keys: first,
        } = self;
        let keys = first.with(alloc, &last.keys)?;
        Ok(Level {
            number,
            processes: computation.processes(),
            keys,
        })
    }

    /// A level of this number without a cut, and with room for this many of the computation's.
    ///
    /// # Errors
    /// An allocation was refused.
    pub fn with_room(
        alloc: Global,
        computation: &Computation<'_>,
        number: u64,
        room: usize,
    ) -> Result<Level, AllocError>
        ensures { IfOk result (λ level. level ≡ record { number = number; cuts = [] }) }
    {
        computation.limits();
        let processes = computation.processes();
        Ok(Level {
            number,
            processes,
            keys: Keys::with_room(alloc, processes, room)?,
        })
    }

    /// The level of this number with the cuts of these keys, each of which has as many digits as there are processes.
    pub(crate) fn of_keys(number: u64, processes: usize, keys: Keys) -> Level
        requires kept { IsKept processes (numbers keys) }
        requires room { HasRoom processes keys }
        ensures { result ≡ record { number = number; cuts = cuts_of processes (numbers keys) } }
    {
        Level {
            number,
            processes,
            keys,
        }
    }

    /// The same level once more.
    ///
    /// # Errors
    /// An allocation was refused.
    pub fn copy(&self, alloc: Global) -> Result<Level, AllocError>
        ensures { IfOk result (λ copy. copy ≡ self.now) }
    {
        Ok(Level {
            number: self.number,
            processes: self.processes,
            keys: self.keys.copy(alloc)?,
        })
    }

    /// The number of the level, from 0: how many events each of its cuts has.
    pub fn number(&self) -> u64
        ensures { result ≡ self.now.number }
    {
        self.number
    }

    /// How many cuts there are.
    pub fn len(&self) -> usize
        ensures { result ≡ length self.now.cuts }
    {
        self.keys.len()
    }

    /// Whether there is no cut.
    pub fn is_empty(&self) -> bool
        ensures { result ≡ (length self.now.cuts == 0) }
    {
        self.keys.len() == 0
    }

    /// The cut with this index, from 0. It takes no memory.
    pub fn cut(&self, alloc: Global, i: usize) -> Cut
        requires { i < length self.now.cuts }
        ensures { slice_get self.now.cuts i ≡ Some result }
    {
        match &self.keys {
            Keys::Single(keys) => cut_of(alloc, keys.get(i), self.processes),
            Keys::Pairs(keys) => cut_of(alloc, keys.get(i), self.processes),
        }
    }

    /// Whether the predicate is true at the state of the cut with this index, from 0. It takes no memory.
    pub fn holds(&self, computation: &Computation<'_>, pred: &Pred, i: usize) -> bool
        requires within { i < length self.now.cuts }
        requires cuts { All (IsConsistent computation.now.events) self.now.cuts }
        ensures { IfSome (slice_get self.now.cuts i) (λ cut. result
            ≡ test_of computation.now (predicate_view pred.now) cut) }
    {
        match &self.keys {
            Keys::Single(keys) => holds_at(computation, pred, keys.get(i), self.processes),
            Keys::Pairs(keys) => holds_at(computation, pred, keys.get(i), self.processes),
        }
    }

    /// Whether the cut is one of the level's. It takes no memory.
    pub fn contains(&self, cut: &Cut) -> bool
        ensures { IsTrue result ↔ Contains self.now.cuts cut.now }
    {
        let counts = cut.counts();
        if counts.len() != self.processes {
            return false;
        }
        match &self.keys {
            Keys::Single(keys) => has(keys, counts),
            Keys::Pairs(keys) => has(keys, counts),
        }
    }

    /// Keeps the cuts whose mark is the one that is wanted, in their order. There is one mark for each cut. The number
    /// stays, and no memory is taken.
    pub fn keep(&mut self, marks: &[bool], wanted: bool)
        requires { length marks.now ≡ length self.old.cuts }
        ensures cuts { self.new.cuts ≡ kept_by wanted marks.now self.old.cuts }
        ensures number { self.new.number ≡ self.old.number }
    {
        self.keys.keep(marks, wanted);
    }
}
