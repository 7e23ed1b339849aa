//! The level after the greatest cut that lacks a count.
ghost use Rattle.wide_conjunctions.specs.Boxes.{IsLevelAfter, IsMostWithout, IsRaisedLevel};
ghost use Rattle.std.specs.Prelude.{◌≡◌, ◌<◌, IfOk, length};

use super::good_counts::GoodCounts;
use super::most::most_before;
use super::order::events;
use pd_clock::{Computation, Cut};
use std::alloc::{AllocError, Global};

/// The counts of one process from one on.
#[derive(Drop)]
struct CountsFrom {
    process: usize,
    number: u64,
}

impl GoodCounts for CountsFrom {
    ghost use Rattle.wide_conjunctions.specs.Boxes.{counts_from};

    ghost good = { λ counts. counts_from counts.process counts.number };

    fn is_good(&self, process: usize, count: u64) -> bool {
        process == self.process && self.number <= count
    }
}

/// The greatest consistent cut with fewer than `number` events of process `process`.
///
/// # Errors
/// An allocation was refused.
fn most_without(
    alloc: Global,
    computation: &Computation<'_>,
    process: usize,
    number: u64,
) -> Result<Cut, AllocError>
    requires there { process < length computation.now.events }
    requires some { 0 < number }
    ensures { IfOk result (IsMostWithout computation.now.events process number) }
{
    let counts = CountsFrom { process, number };
    let found = most_before(alloc, computation, &counts)?;
    Ok(found.unwrap())
}

/// The level, or the one after the greatest cut with fewer than `number` events of process `process`, if there is one
/// and it is higher.
///
/// # Errors
/// An allocation was refused.
fn raised_level(
    alloc: Global,
    computation: &Computation<'_>,
    process: usize,
    number: u64,
    level: u64,
) -> Result<u64, AllocError>
    requires { process < length computation.now.events }
    ensures { IfOk result (IsRaisedLevel computation.now.events process number level) }
{
    if number == 0 {
        return Ok(level);
    }
    let total = computation.total();
    let cut = most_without(alloc, computation, process, number)?;
    let count = events(cut.counts());
    Ok(level.max(count + 1))
}

/// The level after the greatest of the cuts that lack one of these counts, or 0 if all counts are 0: a cut of this
/// level or above lacks none of them.
///
/// # Errors
/// An allocation was refused.
pub(crate) fn level_after(
    alloc: Global,
    computation: &Computation<'_>,
    counts: &[u64],
) -> Result<u64, AllocError>
    requires { length counts.now ≡ length computation.now.events }
    ensures { IfOk result (IsLevelAfter computation.now.events counts.now) }
{
    let mut level = 0;
    for p in 0..counts.len() {
        level = raised_level(alloc, computation, p, counts[p], level)?;
    }
    Ok(level)
}
