//! Comparisons of one sum, which are made together.
ghost use Rattle.walk_tables.specs.Choices.{choice_holds};
ghost use Rattle.walk_tables.specs.Tables.{IsSameSum, linear_holds};
ghost use Rattle.walk_tables.specs.Zero.{joined};
ghost use Rattle.std.specs.Prelude.{◌≡◌, ◌≤◌, ℕ, IfOk, IsTrue, List};

use super::allowed::Allowed;
use super::bits::{all_or_none, put};
use super::linear::Linear;
use super::zero::turned_comparison;
use std::alloc::{AllocError, Global};

/// A sum, and the set of the numbers for which one of the comparisons holds; where `is_and`, for which one doesn't. The
/// sum's own comparison is among them.
#[derive(Drop)]
pub(crate) struct Choice {
    pub(crate) is_and: bool,
    pub(crate) sum: Linear,
    allowed: Allowed,
}

impl Choice {
    ghost use Rattle.def_format.specs.Limits.{event_limit, process_limit};
    ghost use Rattle.walk_keys.specs.Words.{has_bit};
    ghost use Rattle.walk_tables.specs.Tables.{columns_value};
    ghost use Rattle.walk_tables.specs.Zero.{part_limit};
    ghost use Rattle.std.specs.Int.RustNames.{unsigned_abs};
    ghost use Rattle.std.specs.Prelude.{◌+◌, ◌-◌, ◌*◌, ◌<◌, ◌+ℤ◌, IfSome, false, true};

    /// Two comparisons of one sum.
    ///
    /// # Errors
    /// An allocation was refused.
    pub(crate) fn two(
        alloc: Global,
        is_and: bool,
        first: Linear,
        second: &Linear,
    ) -> Result<Choice, AllocError>
        requires { IsSameSum first second.now }
        ensures { IfOk result (λ choice. (prefix : List ℕ) (x y : ℕ) → choice_holds choice prefix x y
            ≡ joined is_and (linear_holds second.now prefix x y) (linear_holds first prefix x y)) }
    {
        let (least, greatest) = first.whole_range();
        let none = Allowed::none(alloc, least, greatest);
        let allowed = none.with(turned_comparison(first.comparison, is_and), 0)?;
        let choice = Choice {
            is_and,
            sum: first,
            allowed,
        };
        let choice = choice.with(second)?;
        Ok(choice)
    }

    /// The comparisons and one more of the same sum.
    ///
    /// # Errors
    /// An allocation was refused.
    pub(crate) fn with(self, linear: &Linear) -> Result<Choice, AllocError>
        requires { IsSameSum self.sum linear.now }
        ensures { IfOk result (λ choice. (prefix : List ℕ) (x y : ℕ) → choice_holds choice prefix x y
            ≡ joined self.is_and (linear_holds linear.now prefix x y) (choice_holds self prefix x y)) }
    {
        let Choice {
            is_and,
            sum,
            allowed,
        } = self;
        let at = sum.constant - linear.constant;
        let allowed = allowed.with(turned_comparison(linear.comparison, is_and), at)?;
        Ok(Choice {
            is_and,
            sum,
            allowed,
        })
    }

    /// Whether the comparisons are joined like this and are of the sum that the other comparison has.
    pub(crate) fn takes(&self, is_and: bool, linear: &Linear) -> bool
        ensures way { IsTrue result → self.now.is_and ≡ is_and }
        ensures sum { IsTrue result → IsSameSum self.now.sum linear.now }
    {
        if self.is_and != is_and {
            return false;
        }
        self.sum.has_sum_of(linear)
    }

    /// How many comparisons are made: one of the sum, and one each time that the numbers are halved.
    pub(crate) fn comparisons(&self) -> u64 {
        self.allowed.halvings().saturating_add(1)
    }

    /// Whether the comparisons hold at the cut with these counts of the last two processes, where the constant and the
    /// first processes add up to `base`.
    fn holds(&self, base: i64, x: u64, y: u64) -> bool
        requires { unsigned_abs base ≤ (process_limit + 1) * part_limit }
        ensures { (prefix : List ℕ) → base ≡ self.now.sum.constant +ℤ columns_value self.now.sum.columns.items prefix
            → result ≡ choice_holds self.now prefix x y }
    {
        self.allowed.has(self.sum.sum_after(base, x, y)) != self.is_and
    }

    /// Whether the comparisons hold at the cut with this prefix and these counts of the last two processes.
    pub(crate) fn holds_at(&self, prefix: &[u64], x: u64, y: u64) -> bool
        ensures { result ≡ choice_holds self.now prefix.now x y }
    {
        self.holds(self.sum.base(prefix), x, y)
    }

    /// `mask` where the constant and the first processes add up to `base`.
    #[inline(never)]
    fn mask_after(&self, base: i64, x: u64, y: u64, n: u64) -> u64
        requires base { unsigned_abs base ≤ (process_limit + 1) * part_limit }
        requires few { n ≤ 64 }
        requires low { x ≤ event_limit }
        requires down { n ≤ y + 1 }
        ensures within { (prefix : List ℕ)
            → base ≡ self.now.sum.constant +ℤ columns_value self.now.sum.columns.items prefix
            → (j : ℕ) → j < n → has_bit result j ≡ choice_holds self.now prefix (x + j) (y - j) }
        ensures beyond { (j : ℕ) → n ≤ j → has_bit result j ≡ false }
    {
        let mut mask = walk_keys::bits::lowest(0);
        for j in 0..n {
            let truth = self.holds(base, x + j, y - j);
            mask = put(mask, j, truth);
        }
        mask
    }

    /// Of which of `n` neighboring cuts the comparisons hold: bit `j` is that of the cut with `x + j` and `y - j`.
    pub(crate) fn mask(&self, prefix: &[u64], x: u64, y: u64, n: u64) -> u64
        requires few { n ≤ 64 }
        requires low { x ≤ event_limit }
        requires down { n ≤ y + 1 }
        ensures within { (j : ℕ) → j < n → has_bit result j ≡ choice_holds self.now prefix.now (x + j) (y - j) }
        ensures beyond { (j : ℕ) → n ≤ j → has_bit result j ≡ false }
    {
        let base = self.sum.base(prefix);
        if let Some(truth) = self.decided_after(base) {
            return all_or_none(truth, n);
        }
        self.mask_after(base, x, y, n)
    }

    /// Whether the comparisons may hold at some cut with this prefix.
    pub(crate) fn may(&self, prefix: &[u64]) -> bool
        ensures { result ≡ false → (x y : ℕ) → choice_holds self.now prefix.now x y ≡ false }
    {
        let base = self.sum.base(prefix);
        match self.decided_after(base) {
            Some(truth) => truth,
            None => true,
        }
    }

    /// Whether it is sure that the comparisons hold at each cut with this prefix.
    pub(crate) fn must(&self, prefix: &[u64]) -> bool
        ensures { result ≡ true → (x y : ℕ) → choice_holds self.now prefix.now x y ≡ true }
    {
        let base = self.sum.base(prefix);
        match self.decided_after(base) {
            Some(truth) => truth,
            None => false,
        }
    }

    /// Whether the comparisons hold at each cut where the constant and the first processes add up to `base`, or at
    /// none; nothing if neither is sure.
    fn decided_after(&self, base: i64) -> Option<bool>
        requires { unsigned_abs base ≤ (process_limit + 1) * part_limit }
        ensures { IfSome result (λ truth. (prefix : List ℕ) (x y : ℕ)
            → base ≡ self.now.sum.constant +ℤ columns_value self.now.sum.columns.items prefix
            → choice_holds self.now prefix x y ≡ truth) }
    {
        let (least, greatest) = self.sum.range_after(base);
        match self.allowed.decided(least, greatest) {
            Some(truth) => Some(truth != self.is_and),
            None => None,
        }
    }
}
