//! The counts that processes have in cuts of the slice, above those of the least one.
ghost use Rattle.wide_conjunctions.specs.LeastCuts.{HasNoGood, IsLeastGood};
ghost use Rattle.wide_conjunctions.specs.Raises.{IsBelowGood};
ghost use Rattle.wide_slice.specs.Goods.{good_from};
ghost use Rattle.wide_slice.specs.Points.{AreRows, IsPoint, IsRow, row_at};
ghost use Rattle.std.specs.Prelude.{◌≡◌, ◌+◌, ◌<◌, ◌≤◌, IfNone, IfOk, IfSome, length, slice_index, ℕ};

use super::good_from::GoodFrom;
use super::past::Past;
use pd_clock::Computation;
use std::alloc::{AllocError, Global};
use wide_conjunctions::{GoodCounts, go_up};

/// A count that a process has in some cut of the slice, with the counts of the least cut of the slice that has it.
#[derive(Drop)]
pub(crate) struct Point {
    pub(crate) count: u16,
    pub(crate) past: Past,
}

/// The next point of a process, at this count or a later one, if there is one. The counts go up to it.
fn next_point<G: GoodCounts>(
    computation: &Computation<'_>,
    wanted: &G,
    process: usize,
    from: u64,
    counts: &mut [u64],
) -> Option<Point>
    requires there { process < length computation.now.events }
    requires below { IsBelowGood computation.now.events (good_from (G.good wanted.now) process from) counts.old }
    ensures some { IfSome result (IsPoint computation.now.events (G.good wanted.now) process from counts.new) }
    ensures none { IfNone result (HasNoGood computation.now.events (good_from (G.good wanted.now) process from)) }
    ensures same { length counts.new ≡ length counts.old }
{
    computation.limits();
    let goods = GoodFrom {
        wanted,
        process,
        from,
    };
    if !go_up(computation, &goods, counts) {
        return None;
    }
    let count = counts[process] as u16;
    let past = Past::new(counts);
    Some(Point { count, past })
}

/// The points of a process, in the order of their counts. The counts go up from those of the least cut.
///
/// # Errors
/// An allocation was refused.
fn points_from<G: GoodCounts>(
    alloc: Global,
    computation: &Computation<'_>,
    wanted: &G,
    process: usize,
    counts: &mut [u64],
) -> Result<Vec<Point>, AllocError>
    requires there { process < length computation.now.events }
    requires least { IsLeastGood computation.now.events (G.good wanted.now) counts.old }
    ensures { IfOk result (λ points. IsRow computation.now.events (G.good wanted.now) process
        (slice_index counts.old process) points.items) }
{
    computation.limits();
    let mut points = Vec::new(alloc);
    let last = computation.events(process);
    let mut from = counts[process] + 1;
    while from <= last {
        let found = next_point(computation, wanted, process, from, counts);
        match found {
            Some(point) => {
                from = point.count as u64 + 1;
                points.push(point)?;
            }
            None => return Ok(points),
        }
    }
    Ok(points)
}

/// The points of a process, in the order of their counts.
///
/// # Errors
/// An allocation was refused.
fn points_of<G: GoodCounts>(
    alloc: Global,
    computation: &Computation<'_>,
    wanted: &G,
    process: usize,
    least: &[u64],
) -> Result<Vec<Point>, AllocError>
    requires there { process < length computation.now.events }
    requires least { IsLeastGood computation.now.events (G.good wanted.now) least.now }
    ensures { IfOk result (λ points. IsRow computation.now.events (G.good wanted.now) process
        (slice_index least.now process) points.items) }
{
    let mut counts = least.to_vec(alloc)?;
    points_from(alloc, computation, wanted, process, &mut counts)
}

/// The points of each process.
///
/// # Errors
/// An allocation was refused.
pub(crate) fn rows<G: GoodCounts>(
    alloc: Global,
    computation: &Computation<'_>,
    wanted: &G,
    least: &[u64],
) -> Result<Vec<Vec<Point>>, AllocError>
    requires { IsLeastGood computation.now.events (G.good wanted.now) least.now }
    ensures { IfOk result (λ rows. AreRows computation.now.events (G.good wanted.now) least.now rows.items) }
{
    let mut rows = Vec::new(alloc);
    for process in 0..computation.processes() {
        rows.push(points_of(alloc, computation, wanted, process, least)?)?;
    }
    Ok(rows)
}

/// The points of a process.
pub(crate) fn row<'a>(rows: &'a [Vec<Point>], process: usize) -> &'a [Point]
    requires { process < length rows.now }
    ensures { result.now ≡ row_at rows.now process }
{
    rows[process].as_slice()
}
