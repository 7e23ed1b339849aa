//! Whether every observation passes through a cut at which each process is at a good count.
ghost use Rattle.wide_conjunctions.specs.Passages.{IsPassage};
ghost use Rattle.std.specs.Prelude.{IfOk};

use super::box_laws::boxes;
use super::box_least::least_box;
use super::box_level::level_after;
use super::good_counts::GoodCounts;
use super::way::avoiding_path;
use pd_clock::Computation;
use std::alloc::{AllocError, Global};

/// What the observations of a computation pass through.
#[derive(Debug, Drop)]
pub enum Passage {
    /// Each passes through a satisfying cut, and this is the least level that has no avoiding cut.
    Passed(u64),
    /// The one with this path passes through none. The path has the processes, counted from 0, in the order in which
    /// their events happen.
    Avoided(Vec<usize>),
}

/// Where a cut satisfies exactly if each process is at a good count: whether every observation passes through a
/// satisfying cut, with the least level that has no avoiding cut, or with the path that is printed of an observation
/// that passes through none. No level is walked, whatever their width.
///
/// # Errors
/// An allocation was refused.
pub fn definitely_all_good<G: GoodCounts>(
    alloc: Global,
    computation: &Computation<'_>,
    wanted: &G,
) -> Result<Passage, AllocError>
    ensures { IfOk result (IsPassage computation.now.events (G.good wanted.now)) }
{
    // the laws that the proof uses
    boxes();
    computation.limits();
    let found = least_box(alloc, computation, wanted)?;
    let Some(starts) = found else {
        let path = avoiding_path(alloc, computation, wanted)?;
        return Ok(Passage::Avoided(path));
    };
    let level = level_after(alloc, computation, &starts)?;
    Ok(Passage::Passed(level))
}
