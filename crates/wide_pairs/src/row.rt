//! A row of numbers, one for each count of a process.
ghost use Rattle.def_model.specs.Predicates.{compares};
ghost use Rattle.wide_pairs.specs.Parts.{IsRowOf, number_at};
ghost use Rattle.pd_pred.specs.Trees.{comparison_view, sum_view};
ghost use Rattle.std.specs.Prelude.{◌≡◌, ◌+◌, ◌<◌, ◌≤◌, ℕ, IfOk, length};

use super::part::difference;
use pd_clock::Computation;
use pd_pred::{Comparison, Sum};
use std::alloc::{AllocError, Global};

/// Whether the one number stands in this relation to the other.
#[inline(always)]
pub(crate) fn is_related(comparison: Comparison, left: &i128, right: i128) -> bool
    ensures { result ≡ compares (comparison_view comparison) left.now right }
{
    let left = *left;
    match comparison {
        Comparison::Equals => left == right,
        Comparison::Differs => left != right,
        Comparison::IsLess => left < right,
        Comparison::IsAtMost => left <= right,
        Comparison::IsGreater => left > right,
        Comparison::IsAtLeast => left >= right,
    }
}

/// The number of a row at a count, and 0 past its end.
pub(crate) fn number_of(row: &[i128], n: u64) -> i128
    ensures { result ≡ number_at row.now n }
{
    let index = n as usize;
    if index < row.len() { row[index] } else { 0 }
}

/// The `n` numbers of a row from that of a count on.
pub(crate) fn numbers_from(row: &[i128], first: u64, n: u64) -> &[i128]
    requires { first + n ≤ length row.now }
    ensures count { length result.now ≡ n }
    ensures each { (k : ℕ) → k < n → number_at result.now k ≡ number_at row.now (first + k) }
{
    &row[first as usize..(first + n) as usize]
}

/// What a process adds to the difference of two sums, by the count of its events. The numbers among the terms are taken
/// in if `numbers`, and else left out. It takes `difference` for each count.
///
/// # Errors
/// An allocation was refused.
pub fn row_of(
    alloc: Global,
    computation: &Computation<'_>,
    process: usize,
    numbers: bool,
    left: &Sum,
    right: &Sum,
) -> Result<Vec<i128>, AllocError>
    requires { process < length computation.now.events }
    ensures { IfOk result (λ row. IsRowOf computation.now process numbers (sum_view left.now) (sum_view right.now)
        row.items) }
{
    computation.limits();
    let end = computation.events(process) + 1;
    let mut row = Vec::with_capacity(alloc, end as usize)?;
    for count in 0..end {
        let number = difference(computation, process, count, numbers, left, right);
        row.push(number)?;
    }
    Ok(row)
}
