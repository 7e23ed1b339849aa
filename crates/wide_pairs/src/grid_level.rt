//! The least level that has no avoiding cut.
ghost use Rattle.wide_pairs.specs.Avoiding.{test_of_pairs};
ghost use Rattle.wide_pairs.specs.Grids.{AreRows, row_has};
ghost use Rattle.wide_pairs.specs.LeastCuts.{ArePasts};
ghost use Rattle.wide_pairs.specs.Levels.{IsLastTrue, IsLevelAbove, IsRowLevel};
ghost use Rattle.def_model.specs.Events.{event_count};
ghost use Rattle.std.specs.Prelude.{◌+◌, ◌<◌, IfOk, length};

use super::band::end_of;
use super::good_pairs::GoodPairs;
use super::grid_row::Row;
use super::most::most_counts;
use pd_clock::Computation;
use std::alloc::{AllocError, Global};
use wide_conjunctions::events;

/// The greatest count from `low` on, before `end`, that the row has.
fn last_in(row: &Row, low: u64, end: u64) -> Option<u64>
    ensures { IsLastTrue (row_has row.now.first row.now.words.items) low end result }
{
    let mut j = end;
    while j > low {
        j -= 1;
        if row.has(j) {
            return Some(j);
        }
    }
    None
}

/// The level after that of the greatest cut in which `p` has `i` events at most and `q` has this many, or 0.
fn row_level(
    alloc: Global,
    computation: &Computation<'_>,
    p: usize,
    q: usize,
    i: u64,
    last: Option<u64>,
) -> Result<u64, AllocError>
    requires first { p < length computation.now.events }
    requires second { q < length computation.now.events }
    ensures { IfOk result (IsRowLevel computation.now.events p q i last) }
{
    computation.total();
    match last {
        None => Ok(0),
        Some(j) => {
            let counts = most_counts(alloc, computation, p, q, i, j)?;
            Ok(events(&counts) + 1)
        }
    }
}

/// The level after that of the greatest avoiding cut, or 0 if there is none.
///
/// # Errors
/// An allocation was refused.
pub(crate) fn level_above<G: GoodPairs>(
    alloc: Global,
    computation: &Computation<'_>,
    p: usize,
    q: usize,
    _wanted: &G,
    lows: &[u64],
    backs: &[u64],
    rows: &[Row],
) -> Result<u64, AllocError>
    requires order { p < q }
    requires there { q < length computation.now.events }
    requires lows { ArePasts computation.now.events p q lows.now }
    requires backs { ArePasts computation.now.events q p backs.now }
    requires rows { AreRows computation.now.events (test_of_pairs (G.good _wanted.now) p q) p q
        (event_count computation.now.events p + 1) rows.now }
    ensures { IfOk result (IsLevelAbove computation.now.events (test_of_pairs (G.good _wanted.now) p q) p
        (event_count computation.now.events p + 1)) }
{
    computation.limits();
    let mut level: u64 = 0;
    let mut end = 0;
    for i in 0..lows.len() {
        end = end_of(backs, i as u64, end);
        let last = last_in(&rows[i + 1], lows[i], end as u64);
        let next = row_level(alloc, computation, p, q, i as u64, last)?;
        level = level.max(next);
    }
    Ok(level)
}
