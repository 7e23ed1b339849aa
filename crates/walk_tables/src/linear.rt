//! A comparison as a sum of tables that is compared with 0.
ghost use Rattle.def_format.specs.Limits.{process_limit};
ghost use Rattle.walk_tables.specs.Zero.{IsSmall};
ghost use Rattle.std.specs.Prelude.{◌≡◌, ◌≤◌, slice_index, vec_len};

use super::bits::{all_or_none, put};
use super::parts::NUMBER_BYTES;
use super::table::Table;
use super::zero::{decided, holds_at_zero};
use pd_pred::Comparison;

/// What one of the first processes adds.
#[derive(Drop)]
pub(crate) struct Column {
    pub(crate) process: usize,
    pub(crate) table: Table,
}

/// A comparison: a constant and what each process adds have a sum that stands in a relation to 0. The first processes
/// have a column only if the comparison speaks of them.
#[derive(Drop)]
pub(crate) struct Linear {
    pub(crate) comparison: Comparison,
    pub(crate) constant: i64,
    pub(crate) columns: Vec<Column>,
    pub(crate) across: Table,
    pub(crate) down: Table,
    ghost few: { vec_len columns ≤ process_limit },
    ghost small: { IsSmall constant },
}

impl Linear {
    ghost use Rattle.def_format.specs.Limits.{event_limit, process_limit};
    ghost use Rattle.walk_keys.specs.Words.{has_bit};
    ghost use Rattle.walk_tables.specs.Tables.{IsSameSum, columns_value, linear_holds, linear_value};
    ghost use Rattle.walk_tables.specs.Zero.{IsBetween, part_limit};
    ghost use Rattle.std.specs.Int.RustNames.{unsigned_abs};
    ghost use Rattle.std.specs.Prelude.{◌≡◌, ℕ, ◌+◌, ◌-◌, ◌*◌, ◌<◌, ◌≤◌, ◌+ℤ◌, List, IfSome, IsTrue, false, true};

    /// The constant and what the first processes add.
    #[inline(always)]
    pub(crate) fn base(&self, prefix: &[u64]) -> i64
        ensures value { result ≡ self.now.constant +ℤ columns_value self.now.columns.items prefix.now }
        ensures small { unsigned_abs result ≤ (process_limit + 1) * part_limit }
    {
        let mut total = self.constant;
        for column in &self.columns {
            total += column.table.at(count_of(prefix, column.process));
        }
        total
    }

    /// Whether the comparison holds at the cut with these counts of the last two processes, where the constant and the
    /// first processes add up to `base`.
    fn holds(&self, base: i64, x: u64, y: u64) -> bool
        requires { unsigned_abs base ≤ (process_limit + 1) * part_limit }
        ensures { (prefix : List ℕ) → base ≡ self.now.constant +ℤ columns_value self.now.columns.items prefix
            → result ≡ linear_holds self.now prefix x y }
    {
        let value = base + self.across.at(x) + self.down.at(y);
        holds_at_zero(self.comparison, value)
    }

    /// Whether the comparison holds at the cut with this prefix and these counts of the last two processes.
    pub(crate) fn holds_at(&self, prefix: &[u64], x: u64, y: u64) -> bool
        ensures { result ≡ linear_holds self.now prefix.now x y }
    {
        self.holds(self.base(prefix), x, y)
    }

    /// `mask` where the constant and the first processes add up to `base`.
    #[inline(never)]
    fn mask_after(&self, base: i64, x: u64, y: u64, n: u64) -> u64
        requires base { unsigned_abs base ≤ (process_limit + 1) * part_limit }
        requires few { n ≤ 64 }
        requires low { x ≤ event_limit }
        requires down { n ≤ y + 1 }
        ensures within { (prefix : List ℕ) → base ≡ self.now.constant +ℤ columns_value self.now.columns.items prefix
            → (j : ℕ) → j < n → has_bit result j ≡ linear_holds self.now prefix (x + j) (y - j) }
        ensures beyond { (j : ℕ) → n ≤ j → has_bit result j ≡ false }
    {
        let mut mask = walk_keys::bits::lowest(0);
        for j in 0..n {
            let truth = self.holds(base, x + j, y - j);
            mask = put(mask, j, truth);
        }
        mask
    }

    /// Of which of `n` neighboring cuts the comparison holds: bit `j` is that of the cut with `x + j` and `y - j`.
    #[inline(always)]
    pub(crate) fn mask(&self, prefix: &[u64], x: u64, y: u64, n: u64) -> u64
        requires few { n ≤ 64 }
        requires low { x ≤ event_limit }
        requires down { n ≤ y + 1 }
        ensures within { (j : ℕ) → j < n → has_bit result j ≡ linear_holds self.now prefix.now (x + j) (y - j) }
        ensures beyond { (j : ℕ) → n ≤ j → has_bit result j ≡ false }
    {
        let base = self.base(prefix);
        if let Some(truth) = self.decided_after(base) {
            return all_or_none(truth, n);
        }
        self.mask_after(base, x, y, n)
    }

    /// Whether the comparison may hold at some cut with this prefix.
    pub(crate) fn may(&self, prefix: &[u64]) -> bool
        ensures { result ≡ false → (x y : ℕ) → linear_holds self.now prefix.now x y ≡ false }
    {
        let base = self.base(prefix);
        match self.decided_after(base) {
            Some(truth) => truth,
            None => true,
        }
    }

    /// Whether it is sure that the comparison holds at each cut with this prefix.
    pub(crate) fn must(&self, prefix: &[u64]) -> bool
        ensures { result ≡ true → (x y : ℕ) → linear_holds self.now prefix.now x y ≡ true }
    {
        let base = self.base(prefix);
        match self.decided_after(base) {
            Some(truth) => truth,
            None => false,
        }
    }

    /// Whether the comparison holds at each cut where the constant and the first processes add up to `base`, or at
    /// none; nothing if neither is sure.
    #[inline(always)]
    fn decided_after(&self, base: i64) -> Option<bool>
        requires { unsigned_abs base ≤ (process_limit + 1) * part_limit }
        ensures { IfSome result (λ truth. (prefix : List ℕ) (x y : ℕ)
            → base ≡ self.now.constant +ℤ columns_value self.now.columns.items prefix
            → linear_holds self.now prefix x y ≡ truth) }
    {
        let least = base + self.across.least + self.down.least;
        let greatest = base + self.across.greatest + self.down.greatest;
        decided(self.comparison, least, greatest)
    }

    /// Whether the comparison holds at each cut, or at none; nothing if neither is sure.
    pub(crate) fn decided(&self) -> Option<bool>
        ensures { IfSome result (λ truth. (prefix : List ℕ) (x y : ℕ) → linear_holds self.now prefix x y ≡ truth) }
    {
        let (least, greatest) = self.range();
        decided(
            self.comparison,
            least + self.across.least + self.down.least,
            greatest + self.across.greatest + self.down.greatest,
        )
    }

    /// The sum at the cut with these counts of the last two processes, where the constant and the first processes add
    /// up to `base`.
    #[inline(always)]
    pub(crate) fn sum_after(&self, base: i64, x: u64, y: u64) -> i64
        requires { unsigned_abs base ≤ (process_limit + 1) * part_limit }
        ensures { (prefix : List ℕ) → base ≡ self.now.constant +ℤ columns_value self.now.columns.items prefix
            → result ≡ linear_value self.now prefix x y }
    {
        base + self.across.at(x) + self.down.at(y)
    }

    /// The least and the greatest that the sum can be where the constant and the first processes add up to `base`.
    #[inline(always)]
    pub(crate) fn range_after(&self, base: i64) -> (i64, i64)
        requires { unsigned_abs base ≤ (process_limit + 1) * part_limit }
        ensures { (prefix : List ℕ) (x y : ℕ)
            → base ≡ self.now.constant +ℤ columns_value self.now.columns.items prefix
            → IsBetween result.0 result.1 (linear_value self.now prefix x y) }
    {
        (
            base + self.across.least + self.down.least,
            base + self.across.greatest + self.down.greatest,
        )
    }

    /// The least and the greatest that the sum can be.
    pub(crate) fn whole_range(&self) -> (i64, i64)
        ensures { (prefix : List ℕ) (x y : ℕ) → IsBetween result.0 result.1 (linear_value self.now prefix x y) }
    {
        let (least, greatest) = self.range();
        (
            least + self.across.least + self.down.least,
            greatest + self.across.greatest + self.down.greatest,
        )
    }

    /// Whether the tables of the other comparison have the same numbers, so that the sums differ by the constants
    /// alone. False isn't sure.
    pub(crate) fn has_sum_of(&self, other: &Linear) -> bool
        ensures { IsTrue result → IsSameSum self.now other.now }
    {
        if !self.across.is_same(&other.across) {
            return false;
        }
        if !self.down.is_same(&other.down) {
            return false;
        }
        Linear::have_same(&self.columns, &other.columns)
    }

    /// Whether the columns are of the same processes and have the same numbers. False isn't sure.
    fn have_same(first: &[Column], second: &[Column]) -> bool
        ensures { IsTrue result → (counts : List ℕ) → columns_value first.now counts ≡ columns_value second.now counts }
    {
        if first.len() != second.len() {
            return false;
        }
        for i in 0..first.len() {
            let one = &first[i];
            let other = &second[i];
            if one.process != other.process {
                return false;
            }
            if !one.table.is_same(&other.table) {
                return false;
            }
        }
        true
    }

    /// How many bytes the tables take.
    pub(crate) fn bytes(&self) -> usize {
        let mut numbers = self.across.len().saturating_add(self.down.len());
        for column in &self.columns {
            numbers = numbers.saturating_add(column.table.len());
        }
        numbers.saturating_mul(NUMBER_BYTES)
    }

    /// How much work the comparison is, by the processes that it speaks of.
    pub(crate) fn weight(&self) -> usize {
        let across = if self.across.is_level() { 0 } else { 2 };
        let down = if self.down.is_level() { 0 } else { 2 };
        self.columns.len().saturating_add(across + down)
    }

    /// The least and the greatest that the constant and the first processes can add up to.
    fn range(&self) -> (i64, i64)
        ensures between { (prefix : List ℕ) → IsBetween result.0 result.1
            (self.now.constant +ℤ columns_value self.now.columns.items prefix) }
        ensures low { unsigned_abs result.0 ≤ (process_limit + 1) * part_limit }
        ensures high { unsigned_abs result.1 ≤ (process_limit + 1) * part_limit }
    {
        let mut least = self.constant;
        let mut greatest = self.constant;
        for column in &self.columns {
            least += column.table.least;
            greatest += column.table.greatest;
        }
        (least, greatest)
    }
}

/// The count of a process, and 0 if there is none.
pub(crate) fn count_of(prefix: &[u64], process: usize) -> u64
    ensures { result ≡ slice_index prefix.now process }
{
    if process < prefix.len() {
        prefix[process]
    } else {
        0
    }
}
