//! The intervals of each process, by the count before which one is looked for.
ghost use Rattle.wide_conjunctions.specs.Rows.{AreRows, IsRow};
ghost use Rattle.def_model.specs.Events.{event_count};
ghost use Rattle.std.specs.Prelude.{◌≡◌, ◌+◌, ◌<◌, ◌≤◌, IfOk, cond, length, nat_eq, slice_index};

use super::good_counts::GoodCounts;
use pd_clock::Computation;
use std::alloc::{AllocError, Global};

/// For each count of a process, and one more than the last: the last interval before it, by the count at which it
/// begins and the one at which it is left. Both are 0 if there is none.
#[derive(Drop)]
pub(crate) struct Row {
    starts: Vec<u64>,
    leaves: Vec<u64>,
}

/// Where the last interval before the next count is left.
fn next_leave(is_good: bool, count: u64, leave: u64) -> u64
    requires { count < 18446744073709551615 }
    ensures { result ≡ cond is_good (count + 1) leave }
{
    if is_good { count + 1 } else { leave }
}

/// Where the last interval before the next count begins.
fn next_start(is_good: bool, count: u64, start: u64, leave: u64) -> u64
    ensures { result ≡ cond is_good (cond (nat_eq leave count) start count) start }
{
    if is_good && leave != count {
        count
    } else {
        start
    }
}

/// The row of process `p`.
///
/// # Errors
/// An allocation was refused.
fn row_of_process<G: GoodCounts>(
    alloc: Global,
    computation: &Computation<'_>,
    wanted: &G,
    p: usize,
) -> Result<Row, AllocError>
    requires { p < length computation.now.events }
    ensures { IfOk result (λ row. IsRow (G.good wanted.now p) (event_count computation.now.events p)
        row.starts.items row.leaves.items) }
{
    computation.limits();
    let mut starts = Vec::new(alloc);
    let mut leaves = Vec::new(alloc);
    starts.push(0)?;
    leaves.push(0)?;
    let mut start = 0;
    let mut leave = 0;
    for count in 0..computation.events(p) + 1 {
        let is_good = wanted.is_good(p, count);
        start = next_start(is_good, count, start, leave);
        leave = next_leave(is_good, count, leave);
        starts.push(start)?;
        leaves.push(leave)?;
    }
    Ok(Row { starts, leaves })
}

/// The row of each process.
///
/// # Errors
/// An allocation was refused.
pub(crate) fn rows<G: GoodCounts>(
    alloc: Global,
    computation: &Computation<'_>,
    wanted: &G,
) -> Result<Vec<Row>, AllocError>
    ensures { IfOk result (λ rows. AreRows computation.now.events (G.good wanted.now) rows.items) }
{
    let mut rows = Vec::new(alloc);
    for p in 0..computation.processes() {
        rows.push(row_of_process(alloc, computation, wanted, p)?)?;
    }
    Ok(rows)
}

/// The number at a count.
fn at(numbers: &[u64], count: u64) -> u64
    requires { count < length numbers.now }
    ensures { result ≡ slice_index numbers.now count }
{
    numbers[count as usize]
}

impl Row {
    /// Where the last interval before a count begins.
    pub(crate) fn start_before(&self, before: u64) -> u64
        requires { before < length self.now.starts.items }
        ensures { result ≡ slice_index self.now.starts.items before }
    {
        at(&self.starts, before)
    }

    /// Where it is left, or 0 if there is none.
    pub(crate) fn leave_before(&self, before: u64) -> u64
        requires { before < length self.now.leaves.items }
        ensures { result ≡ slice_index self.now.leaves.items before }
    {
        at(&self.leaves, before)
    }
}

/// Whether a count of process `p` is good: the last interval before the next count is left there. What is wanted is
/// there for the contract alone.
pub(crate) fn is_good_count<G: GoodCounts>(
    computation: &Computation<'_>,
    _wanted: &G,
    rows: &[Row],
    p: usize,
    count: u64,
) -> bool
    requires rows { AreRows computation.now.events (G.good _wanted.now) rows.now }
    requires there { p < length computation.now.events }
    requires within { count ≤ event_count computation.now.events p }
    ensures { result ≡ G.good _wanted.now p count }
{
    computation.limits();
    let row = &rows[p];
    row.leave_before(count + 1) == count + 1
}
