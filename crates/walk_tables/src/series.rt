//! A chain of comparisons by tables, which are asked in turn.
ghost use Rattle.walk_tables.specs.Tables.{IsSameSum};
ghost use Rattle.std.specs.Prelude.{◌≡◌, ◌≤◌, ◌<◌, IfSome, length, slice_index_or};

use super::bits::{all_or_none, joined_words};
use super::choice::Choice;
use super::choices;
use super::choices::choice_for;
use super::linear::Linear;
use std::alloc::{AllocError, Global};

/// Comparisons by tables that are joined in one way. Those of one sum are a choice. The choices are asked after the
/// other comparisons, of which the last one of the list is asked first.
#[derive(Drop)]
pub(crate) struct Series {
    pub(crate) is_and: bool,
    parts: Vec<Linear>,
    choices: Vec<Choice>,
}

/// Which of the comparisons has the same sum.
fn part_with_sum(parts: &[Linear], linear: &Linear) -> Option<usize>
    ensures within { IfSome result (λ i. i < length parts.now) }
    ensures sum { IfSome result (λ i. (d : Linear) → IsSameSum (slice_index_or parts.now i d) linear.now) }
{
    for i in 0..parts.len() {
        if parts[i].has_sum_of(linear) {
            return Some(i);
        }
    }
    None
}

impl Series {
    ghost use Rattle.walk_keys.specs.Words.{has_bit};
    ghost use Rattle.def_format.specs.Limits.{event_limit};
    ghost use Rattle.walk_tables.specs.Series.{series_holds};
    ghost use Rattle.walk_tables.specs.Tables.{linear_holds};
    ghost use Rattle.walk_tables.specs.Zero.{joined};
    ghost use Rattle.std.specs.Prelude.{◌≡◌, ℕ, ◌+◌, ◌-◌, ◌<◌, ◌≤◌, IfOk, List, false, true};

    /// One comparison.
    ///
    /// # Errors
    /// An allocation was refused.
    pub(crate) fn one(alloc: Global, is_and: bool, only: Linear) -> Result<Series, AllocError>
        ensures way { IfOk result (λ series. series.is_and ≡ is_and) }
        ensures holds { IfOk result (λ series. (prefix : List ℕ) (x y : ℕ) → series_holds series prefix x y
            ≡ linear_holds only prefix x y) }
    {
        let mut parts = Vec::with_capacity(alloc, 2)?;
        parts.push(only)?;
        Ok(Series {
            is_and,
            parts,
            choices: Vec::new(alloc),
        })
    }

    /// The chain with one comparison more, which is asked before the others unless they have its sum.
    ///
    /// # Errors
    /// An allocation was refused.
    pub(crate) fn with(self, alloc: Global, first: Linear) -> Result<Series, AllocError>
        ensures { IfOk result (λ series. (prefix : List ℕ) (x y : ℕ) → series_holds series prefix x y
            ≡ joined self.is_and (linear_holds first prefix x y) (series_holds self prefix x y)) }
    {
        match choice_for(&self.choices, self.is_and, &first) {
            Some(i) => self.with_in_choice(i, &first),
            None => match part_with_sum(&self.parts, &first) {
                Some(i) => self.with_choice(alloc, i, &first),
                None => self.with_part(first),
            },
        }
    }

    /// The chain with a comparison that choice `i` takes.
    ///
    /// # Errors
    /// An allocation was refused.
    fn with_in_choice(self, i: usize, first: &Linear) -> Result<Series, AllocError>
        requires within { i < length self.choices.items }
        requires way { (d : Choice) → (slice_index_or self.choices.items i d).is_and ≡ self.is_and }
        requires sum { (d : Choice) → IsSameSum (slice_index_or self.choices.items i d).sum first.now }
        ensures { IfOk result (λ series. (prefix : List ℕ) (x y : ℕ) → series_holds series prefix x y
            ≡ joined self.is_and (linear_holds first.now prefix x y) (series_holds self prefix x y)) }
    {
        let Series {
            is_and,
            parts,
            mut choices,
        } = self;
        let choice = choices.remove(i);
        let choice = choice.with(first)?;
        choices.push(choice)?;
        Ok(Series {
            is_and,
            parts,
            choices,
        })
    }

    /// The chain with a comparison that makes a choice together with part `i`, which has its sum.
    ///
    /// # Errors
    /// An allocation was refused.
    fn with_choice(self, alloc: Global, i: usize, first: &Linear) -> Result<Series, AllocError>
        requires within { i < length self.parts.items }
        requires sum { (d : Linear) → IsSameSum (slice_index_or self.parts.items i d) first.now }
        ensures { IfOk result (λ series. (prefix : List ℕ) (x y : ℕ) → series_holds series prefix x y
            ≡ joined self.is_and (linear_holds first.now prefix x y) (series_holds self prefix x y)) }
    {
        let Series {
            is_and,
            mut parts,
            mut choices,
        } = self;
        let part = parts.remove(i);
        let choice = Choice::two(alloc, is_and, part, first)?;
        choices.push(choice)?;
        Ok(Series {
            is_and,
            parts,
            choices,
        })
    }

    /// The chain with a comparison that is asked before the others.
    ///
    /// # Errors
    /// An allocation was refused.
    fn with_part(self, first: Linear) -> Result<Series, AllocError>
        ensures { IfOk result (λ series. (prefix : List ℕ) (x y : ℕ) → series_holds series prefix x y
            ≡ joined self.is_and (linear_holds first prefix x y) (series_holds self prefix x y)) }
    {
        let Series {
            is_and,
            mut parts,
            choices,
        } = self;
        parts.push(first)?;
        Ok(Series {
            is_and,
            parts,
            choices,
        })
    }

    /// Whether the chain has a comparison of the sum that this one has.
    pub(crate) fn has_sum_of(&self, linear: &Linear) -> bool {
        choice_for(&self.choices, self.is_and, linear).is_some()
            || part_with_sum(&self.parts, linear).is_some()
    }

    /// How many comparisons are made at a cut, at most the greatest `u64`.
    pub(crate) fn comparisons(&self) -> u64 {
        let mut all = self.parts.len() as u64;
        for choice in &self.choices {
            all = all.saturating_add(choice.comparisons());
        }
        all
    }

    /// Of which of `n` neighboring cuts the chain holds: bit `j` is that of the cut with `x + j` and `y - j`.
    pub(crate) fn mask(&self, prefix: &[u64], x: u64, y: u64, n: u64) -> u64
        requires few { n ≤ 64 }
        requires low { x ≤ event_limit }
        requires down { n ≤ y + 1 }
        ensures within { (j : ℕ) → j < n → has_bit result j ≡ series_holds self.now prefix.now (x + j) (y - j) }
        ensures beyond { (j : ℕ) → n ≤ j → has_bit result j ≡ false }
    {
        let decided = all_or_none(!self.is_and, n);
        let mut found = all_or_none(self.is_and, n);
        let count = self.parts.len();
        for i in 0..count {
            let part = &self.parts[count - 1 - i];
            found = joined_words(self.is_and, part.mask(prefix, x, y, n), found);
            if found == decided {
                return decided;
            }
        }
        if self.choices.is_empty() {
            return found;
        }
        joined_words(
            self.is_and,
            choices::mask(self.is_and, &self.choices, prefix, x, y, n),
            found,
        )
    }

    /// Whether the chain holds at the cut with this prefix and these counts of the last two processes.
    pub(crate) fn holds_at(&self, prefix: &[u64], x: u64, y: u64) -> bool
        ensures { result ≡ series_holds self.now prefix.now x y }
    {
        let count = self.parts.len();
        for i in 0..count {
            let part = &self.parts[count - 1 - i];
            if part.holds_at(prefix, x, y) != self.is_and {
                return !self.is_and;
            }
        }
        choices::hold_at(self.is_and, &self.choices, prefix, x, y)
    }

    /// Whether the chain may hold at some cut with this prefix.
    pub(crate) fn may(&self, prefix: &[u64]) -> bool
        ensures { result ≡ false → (x y : ℕ) → series_holds self.now prefix.now x y ≡ false }
    {
        let count = self.parts.len();
        for i in 0..count {
            let part = &self.parts[count - 1 - i];
            if part.may(prefix) != self.is_and {
                return !self.is_and;
            }
        }
        if self.choices.is_empty() {
            return self.is_and;
        }
        choices::may(self.is_and, &self.choices, prefix)
    }

    /// Whether it is sure that the chain holds at each cut with this prefix.
    pub(crate) fn must(&self, prefix: &[u64]) -> bool
        ensures { result ≡ true → (x y : ℕ) → series_holds self.now prefix.now x y ≡ true }
    {
        let count = self.parts.len();
        for i in 0..count {
            let part = &self.parts[count - 1 - i];
            if part.must(prefix) != self.is_and {
                return !self.is_and;
            }
        }
        if self.choices.is_empty() {
            return self.is_and;
        }
        choices::must(self.is_and, &self.choices, prefix)
    }
}
