//! How many events of a process are kept, up to each of its events.
ghost use Rattle.def_format.specs.Limits.{event_limit};
ghost use Rattle.judge_orders.specs.KeptEvents.{AllAscend};
ghost use Rattle.judge_orders.specs.Lists.{lists_view};
ghost use Rattle.judge_orders.specs.Ranked.{HaveColumns, IsColumn, IsCountBelow};
ghost use Rattle.std.specs.Prelude.{◌≡◌, ◌+◌, ◌<◌, ◌≤◌, ℕ, AllPairs, IfOk, length, slice_index};

use pd_clock::Computation;
use std::alloc::{AllocError, Global};

/// How many of these numbers are at most `n`, if this many are below it.
#[inline(always)]
pub(crate) fn count_with(numbers: &[u64], n: u64, below: usize) -> usize
    requires ascend { AllPairs (λ (k m : ℕ). k < m) numbers.now }
    requires below { IsCountBelow numbers.now n below }
    ensures count { IsCountBelow numbers.now (n + 1) result }
    ensures next { result ≤ below + 1 }
{
    if below < numbers.len() && numbers[below] == n {
        below + 1
    } else {
        below
    }
}

/// How many of these numbers, which ascend, are at most `n`, for each `n` from 0 to `end`. It is empty if there is no
/// number.
fn column(alloc: Global, numbers: &[u64], end: u64) -> Result<Vec<u16>, AllocError>
    requires ascend { AllPairs (λ (k m : ℕ). k < m) numbers.now }
    requires short { end ≤ event_limit }
    ensures { IfOk result (λ column. IsColumn numbers.now column.items end) }
{
    if numbers.is_empty() {
        return Ok(Vec::new(alloc));
    }
    let mut column = Vec::with_capacity(alloc, end as usize + 1)?;
    let mut count = 0;
    for n in 0..end + 1 {
        count = count_with(numbers, n, count);
        column.push(count as u16)?;
    }
    Ok(column)
}

/// For each process how many of its kept events, which have these numbers, it has up to each of its events. A process
/// that keeps none has an empty column.
///
/// It takes time and memory for the events of each process that keeps one.
///
/// # Errors
/// An allocation was refused.
pub fn columns(
    alloc: Global,
    computation: &Computation<'_>,
    numbers: &[Vec<u64>],
) -> Result<Vec<Vec<u16>>, AllocError>
    requires one_each { length numbers.now ≡ length computation.now.events }
    requires ascend { AllAscend (lists_view numbers.now) }
    ensures one_each { IfOk result (λ columns. length columns.items ≡ length computation.now.events) }
    ensures columns { IfOk result (λ columns. HaveColumns computation.now.events (lists_view numbers.now)
        (lists_view columns.items) (length computation.now.events)) }
{
    computation.limits();
    let mut columns = Vec::with_capacity(alloc, numbers.len())?;
    for p in 0..numbers.len() {
        columns.push(column(alloc, &numbers[p], computation.events(p))?)?;
    }
    Ok(columns)
}

/// How many kept events a process has up to its event `n`, by its column.
#[inline(always)]
pub fn rank(column: &[u16], n: u64) -> u16
    ensures { result ≡ slice_index column.now n }
{
    if n < column.len() as u64 {
        column[n as usize]
    } else {
        0
    }
}
