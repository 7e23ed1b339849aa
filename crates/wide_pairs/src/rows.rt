//! A comparison as two rows of numbers.
ghost use Rattle.wide_pairs.specs.Parts.{IsSmall, number_at};
ghost use Rattle.std.specs.Prelude.{ℕ};

use super::pair::Pair;
use super::row::{is_related, number_of, numbers_from, row_of};
use super::word::{below, related_word};
use pd_clock::Computation;
use pd_pred::{Comparison, Sum};
use std::alloc::{AllocError, Global};

/// A comparison of two processes: what the one adds to the difference of its sides by its count, and what the other
/// adds, have a sum that stands in a relation to 0.
#[derive(Drop)]
pub(crate) struct Rows {
    comparison: Comparison,
    first: Vec<i128>,
    second: Vec<i128>,
    ghost first_small: { (n : ℕ) → IsSmall (number_at first.items n) },
    ghost second_small: { (n : ℕ) → IsSmall (number_at second.items n) },
}

impl Rows {
    ghost use Rattle.def_model.specs.Predicates as model;
    ghost use Rattle.wide_pairs.specs.Tests.{IsByCounts, rows_hold};
    ghost use Rattle.def_model.specs.Decided.{NamePair};
    ghost use Rattle.pd_pred.specs.Trees.{comparison_view, sum_view};
    ghost use Rattle.walk_keys.specs.Words.{has_bit};
    ghost use Rattle.std.specs.Prelude.{◌≡◌, ◌+◌, ◌<◌, ◌≤◌, ℕ, IfOk, length};

    /// The rows of a comparison that names these two processes alone.
    ///
    /// # Errors
    /// An allocation was refused.
    pub(crate) fn of(
        alloc: Global,
        computation: &Computation<'_>,
        pair: Pair,
        left: &Sum,
        comparison: Comparison,
        right: &Sum,
    ) -> Result<Rows, AllocError>
        requires order { pair.first < pair.second }
        requires there { pair.second < length computation.now.events }
        requires left { NamePair pair.first pair.second (sum_view left.now) }
        requires right { NamePair pair.first pair.second (sum_view right.now) }
        ensures { IfOk result (λ rows. IsByCounts computation.now pair.first pair.second
            (model.Compare (sum_view left.now) (comparison_view comparison) (sum_view right.now)) (rows_hold rows)) }
    {
        let first = row_of(alloc, computation, pair.first, true, left, right)?;
        let second = row_of(alloc, computation, pair.second, false, left, right)?;
        Ok(Rows {
            comparison,
            first,
            second,
        })
    }

    /// Whether the comparison holds at these counts of the two processes.
    pub(crate) fn hold(&self, i: u64, j: u64) -> bool
        ensures { result ≡ rows_hold self.now i j }
    {
        let number = number_of(&self.first, i) + number_of(&self.second, j);
        is_related(self.comparison, &number, 0)
    }

    /// The same of `n` counts of the second process, from `j` on: bit `k` is that of `j + k`.
    pub(crate) fn word(&self, i: u64, j: u64, n: u64) -> u64
        requires few { n ≤ 64 }
        requires room { j + n ≤ 18446744073709551615 }
        ensures { (k : ℕ) → k < n → has_bit result k ≡ rows_hold self.now i (j + k) }
    {
        if j + n <= self.second.len() as u64 {
            let numbers = numbers_from(&self.second, j, n);
            return related_word(self.comparison, numbers, 0 - number_of(&self.first, i));
        }
        self.far_word(i, j, n)
    }

    /// The same where the second row may end before.
    fn far_word(&self, i: u64, j: u64, n: u64) -> u64
        requires few { n ≤ 64 }
        requires room { j + n ≤ 18446744073709551615 }
        ensures { (k : ℕ) → k < n → has_bit result k ≡ rows_hold self.now i (j + k) }
    {
        let mut word = 0;
        let mut k = n;
        while k > 0 {
            k -= 1;
            word = below(word, self.hold(i, j + k));
        }
        word
    }
}
