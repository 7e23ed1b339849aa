//! For each cut of a whole level whether it avoids.
ghost use Rattle.walk_keys.specs.Words.{has_bit};
ghost use Rattle.pd_level.specs.Levels.{IsKept, cuts_of};
ghost use Rattle.walk_marks.specs.Marks.{AreMarksOf, IsMarkedAt, IsMarking, IsShaped, bit_from, bits_in};
ghost use Rattle.def_model.specs.Answers.{IsListOf};
ghost use Rattle.def_model.specs.Events.{Computation};
ghost use Rattle.def_model.specs.Observations.{IsAvoiding};
ghost use Rattle.walk_runs.specs.Levels.{IsWholeLevel, WholeLevel};
ghost use Rattle.std.specs.Prelude.{◌≡◌, ◌+◌, ◌/◌, ◌<◌, ◌≤◌, ◌↔◌, ℕ, Bool, IfOk, IfSome, IsTrue, List, false, length, map};

use super::list::push_marked;
use super::run;
use pd_level::{Level, LevelKey};
use std::alloc::{AllocError, Global};
use std::marker::Model;
use walk_keys::Key;
use walk_keys::bits::{BITS, count, down, either, up, words};
use walk_runs::Whole;

/// For each cut of a whole level whether it avoids: whether events can be added to the empty cut one at a time until
/// it is
/// reached, through consistent cuts that don't satisfy, and it doesn't either.
#[derive(Drop)]
pub struct Marks {
    first: Vec<usize>,
    words: Vec<u64>,
    count: u64,
}

impl Model for Marks {
    ghost use Rattle.walk_marks.specs.Marks.{Marking};

    ghost Value = { Marking };

    ghost view = { λ m. record { first = m.first.items; words = m.words.items; count = m.count } };
}

/// The 64 bits from bit `from` on, counted through the words from `start` to `last`, and zeros after them.
fn bits_at(all: &[u64], start: usize, last: usize, from: u64) -> u64
    requires some { start + from / 64 ≤ last }
    requires within { last < length all.now }
    ensures bits { (j : ℕ) → j < 64 → start + (from + j) / 64 ≤ last
        → has_bit result j ≡ bit_from all.now start (from + j) }
    ensures beyond { (j : ℕ) → j < 64 → last < start + (from + j) / 64 → has_bit result j ≡ false }
{
    let at = start + (from / BITS) as usize;
    let by = from % BITS;
    words(all[at]);
    let low = down(all[at], by);
    if by == 0 || at >= last {
        return low;
    }
    either(low, up(all[at + 1], BITS - by))
}

/// How many bits of the words are set, or none if that is no number of 64 bits. No memory has that many.
pub(crate) fn bits(all: &[u64]) -> Option<u64>
    ensures { IfSome result (λ sum. sum ≡ bits_in all.now) }
{
    let mut sum: u64 = 0;
    for &word in all {
        sum = sum.checked_add(count(word))?;
    }
    Some(sum)
}

impl Marks {
    /// The marks with these words, of which each run's first one is known, and this number of bits that are set.
    pub(crate) fn new(first: Vec<usize>, words: Vec<u64>, count: u64) -> Marks
        ensures { result ≡ record { first = first.items; words = words.items; count = count } }
    {
        Marks {
            first,
            words,
            count,
        }
    }

    /// How many cuts avoid.
    pub fn count(&self) -> u64
        ensures { (c : Computation) (test : List ℕ → Bool) (level : WholeLevel) → IsWholeLevel c level
            → IsMarking c test level self.now
            → (cuts : List (List ℕ)) × IsListOf (IsAvoiding c test level.number) cuts × (length cuts ≡ result) }
    {
        self.count
    }

    /// The marks of 64 neighboring cuts of run `i`: bit `j` is that of the cut whose count of the last process but
    /// one is
    /// `x + j`, and 0 if there is none.
    pub(crate) fn window<K: Key>(&self, level: &Whole<K>, i: usize, x: u64) -> u64
        requires shape { IsShaped level.now.runs self.now }
        requires within { i < length level.now.runs }
        ensures { (j : ℕ) → j < 64 → IsTrue (has_bit result j) ↔ IsMarkedAt level.now.runs self.now i (x + j) }
    {
        let lo = run::lo(level, i);
        let hi = run::hi(level, i);
        words(0);
        if x > hi {
            return 0;
        }
        let start = self.first[i];
        if x >= lo {
            let last = start + ((hi - lo) / BITS) as usize;
            return bits_at(&self.words, start, last, x - lo);
        }
        if lo - x >= BITS {
            return 0;
        }
        up(self.words[start], lo - x)
    }

    /// The keys of the avoiding cuts, which ascend.
    ///
    /// # Errors
    /// An allocation was refused.
    fn keys<K: Key>(&self, alloc: Global, level: &Whole<K>) -> Result<Vec<K>, AllocError>
        requires { AreMarksOf level.now self.now }
        ensures kept { IfOk result (λ keys. IsKept level.now.processes (map K.number keys.items)) }
        ensures list { IfOk result (λ keys. (c : Computation) (test : List ℕ → Bool) → IsWholeLevel c level.now
            → IsMarking c test level.now self.now → IsListOf (IsAvoiding c test level.now.number)
            (cuts_of level.now.processes (map K.number keys.items))) }
    {
        level.limits();
        let mut keys = Vec::with_capacity(alloc, self.count as usize)?;
        for i in 0..level.len() {
            push_marked(&self.words, level, i, self.first[i], &mut keys)?;
        }
        Ok(keys)
    }

    /// The avoiding cuts as a general level. The marks have to be those of this level.
    ///
    /// # Errors
    /// An allocation was refused.
    pub fn to_level<K: LevelKey>(
        &self,
        alloc: Global,
        level: &Whole<K>,
    ) -> Result<Level, AllocError>
        requires { AreMarksOf level.now self.now }
        ensures number { IfOk result (λ listed. listed.number ≡ level.now.number) }
        ensures list { IfOk result (λ listed. (c : Computation) (test : List ℕ → Bool) → IsWholeLevel c level.now
            → IsMarking c test level.now self.now → IsListOf (IsAvoiding c test level.now.number) listed.cuts) }
    {
        level.limits();
        let keys = self.keys(alloc, level)?;
        Ok(K::level_of(level.number(), level.processes(), keys))
    }
}
