//! Whether every observation passes through a satisfying cut.
ghost use Rattle.wide_pairs.specs.Passages.{IsPassage};
ghost use Rattle.std.specs.Prelude.{◌<◌, IfOk, length};

use super::good_pairs::GoodPairs;
use super::grid::{is_avoiding, rows_of};
use super::grid_level::level_above;
use super::least::pasts;
use super::way::way_back;
use pd_clock::Computation;
use std::alloc::{AllocError, Global};

/// Whether every observation passes through a satisfying cut.
#[derive(Drop)]
pub enum Passage {
    /// Yes: the least level that has no avoiding cut.
    Passed(u64),
    /// No: the path of an avoiding observation, as the processes in the order in which their events happen.
    Avoided(Vec<usize>),
}

/// Whether every observation passes through a satisfying cut of a test that asks for good counts of processes `p` and
/// `q`, counted from 0; with the least level that has no avoiding cut, or the path that is printed. No level is walked,
/// whatever their width: each pair of counts that a consistent cut can have is asked for once at most, and takes a bit.
///
/// Source: `docs/ANY-WIDTH.md` has the argument for the grid of pairs; its least cuts are those of Garg and Waldecker,
/// Detection of Weak Unstable Predicates in Distributed Programs, 1994.
///
/// # Errors
/// An allocation was refused.
pub fn definitely_by_pairs<G: GoodPairs>(
    alloc: Global,
    computation: &Computation<'_>,
    p: usize,
    q: usize,
    wanted: &G,
) -> Result<Passage, AllocError>
    requires order { p < q }
    requires there { q < length computation.now.events }
    ensures { IfOk result (IsPassage computation.now.events (G.good wanted.now) p q) }
{
    computation.limits();
    let lows = pasts(alloc, computation, p, q)?;
    let backs = pasts(alloc, computation, q, p)?;
    let rows = rows_of(alloc, computation, p, q, wanted, &lows, &backs)?;
    if is_avoiding(&rows, computation.events(p), computation.events(q)) {
        let path = way_back(alloc, computation, p, q, wanted, &rows)?;
        return Ok(Passage::Avoided(path));
    }
    let level = level_above(alloc, computation, p, q, wanted, &lows, &backs, &rows)?;
    Ok(Passage::Passed(level))
}
