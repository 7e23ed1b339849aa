//! The way back from the full cut where it avoids.
ghost use Rattle.def_format.specs.Limits.{process_limit};
ghost use Rattle.wide_pairs.specs.Avoiding.{test_of_pairs};
ghost use Rattle.wide_pairs.specs.Grids.{AreRows};
ghost use Rattle.def_model.specs.Answers.{IsPrintedPath, LeavesAvoiding};
ghost use Rattle.def_model.specs.Cuts.{IsConsistent, full_cut, one_less, total};
ghost use Rattle.def_model.specs.Events.{event_count};
ghost use Rattle.def_model.specs.Observations.{IsAvoiding};
ghost use Rattle.std.specs.Prelude.{◌≡◌, ◌+◌, ◌<◌, ◌≤◌, ◌↔◌, ℕ, IfOk, IsTrue, length, slice_index};

use super::good_pairs::GoodPairs;
use super::grid::is_avoiding;
use super::grid_row::Row;
use def_format::PROCESS_LIMIT;
use pd_clock::{Computation, Cut};
use std::alloc::{AllocError, Global};

/// The cut with all events. It takes no memory.
fn whole_cut(alloc: Global, computation: &Computation<'_>) -> Cut
    ensures { result ≡ full_cut computation.now.events }
{
    computation.limits();
    let processes = computation.processes();
    let mut counts = [0; PROCESS_LIMIT];
    for p in 0..processes {
        counts[p] = computation.events(p);
    }
    Cut::new(alloc, &counts[..processes]).unwrap()
}

/// The count of process `p` without the last event of process `r`.
fn count_without(counts: &[u64], p: usize, r: usize) -> u64
    requires within { p < length counts.now }
    requires some { 0 < slice_index counts.now r }
    ensures { result ≡ slice_index (one_less counts.now r) p }
{
    if p == r { counts[p] - 1 } else { counts[p] }
}

/// Whether an avoiding cut is left without the last event of process `r`.
fn leaves<G: GoodPairs>(
    computation: &Computation<'_>,
    p: usize,
    q: usize,
    _wanted: &G,
    rows: &[Row],
    cut: &Cut,
    r: usize,
) -> bool
    requires order { p < q }
    requires there { q < length computation.now.events }
    requires rows { AreRows computation.now.events (test_of_pairs (G.good _wanted.now) p q) p q
        (event_count computation.now.events p + 1) rows.now }
    requires consistent { IsConsistent computation.now.events cut.now }
    requires within { r < length computation.now.events }
    ensures { IsTrue result
        ↔ LeavesAvoiding computation.now.events (test_of_pairs (G.good _wanted.now) p q) cut.now r }
{
    // the laws that the proof uses
    computation.limits();
    if !computation.can_undo(cut, r) {
        return false;
    }
    let i = count_without(cut.counts(), p, r);
    let j = count_without(cut.counts(), q, r);
    is_avoiding(rows, i, j)
}

/// The least process without whose last event an avoiding cut is left.
fn least_leaving<G: GoodPairs>(
    computation: &Computation<'_>,
    p: usize,
    q: usize,
    _wanted: &G,
    rows: &[Row],
    cut: &Cut,
) -> usize
    requires order { p < q }
    requires there { q < length computation.now.events }
    requires rows { AreRows computation.now.events (test_of_pairs (G.good _wanted.now) p q) p q
        (event_count computation.now.events p + 1) rows.now }
    requires consistent { IsConsistent computation.now.events cut.now }
    requires some { (r : ℕ) × (r < length cut.now)
        × LeavesAvoiding computation.now.events (test_of_pairs (G.good _wanted.now) p q) cut.now r }
    ensures leaves { LeavesAvoiding computation.now.events (test_of_pairs (G.good _wanted.now) p q) cut.now result }
    ensures least { (r : ℕ) → r < result
        → ¬ LeavesAvoiding computation.now.events (test_of_pairs (G.good _wanted.now) p q) cut.now r }
{
    computation.limits();
    let mut r = 0;
    while !leaves(computation, p, q, _wanted, rows, cut, r) {
        r += 1;
    }
    r
}

/// The processes, counted from 0, in the order in which their events happen in an avoiding observation. From the full
/// cut backward each step undoes the event of the least process that leaves an avoiding cut.
///
/// # Errors
/// An allocation was refused.
pub(crate) fn way_back<G: GoodPairs>(
    alloc: Global,
    computation: &Computation<'_>,
    p: usize,
    q: usize,
    wanted: &G,
    rows: &[Row],
) -> Result<Vec<usize>, AllocError>
    requires order { p < q }
    requires there { q < length computation.now.events }
    requires rows { AreRows computation.now.events (test_of_pairs (G.good wanted.now) p q) p q
        (event_count computation.now.events p + 1) rows.now }
    requires full { IsAvoiding computation.now.events (test_of_pairs (G.good wanted.now) p q)
        (total computation.now.events) (full_cut computation.now.events) }
    ensures { IfOk result (λ path. IsPrintedPath computation.now.events
        (test_of_pairs (G.good wanted.now) p q) path.items) }
{
    computation.limits();
    let mut cut = whole_cut(alloc, computation);
    let mut events = computation.total();
    let mut path = Vec::with_capacity(alloc, events as usize)?;
    while events > 0 {
        events -= 1;
        let r = least_leaving(computation, p, q, wanted, rows, &cut);
        path.push(r)?;
        cut.undo(r);
    }
    path.reverse();
    Ok(path)
}
