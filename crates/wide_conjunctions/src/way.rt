//! The path of an observation that passes through no satisfying cut.
ghost use Rattle.wide_conjunctions.specs.Boxes.{HasNoBox, LeavesNoBox};
ghost use Rattle.wide_conjunctions.specs.Holds.{AreHolds, IsRunDown};
ghost use Rattle.wide_conjunctions.specs.Rows.{AreRows};
ghost use Rattle.wide_conjunctions.specs.Ways.{ComesBack, IsWayBack};
ghost use Rattle.def_format.specs.Limits.{process_limit};
ghost use Rattle.def_model.specs.Cuts.{IsConsistent, full_cut, one_less};
ghost use Rattle.std.specs.Prelude.{◌≡◌, ◌<◌, ◌≤◌, ◌↔◌, ℕ, IfOk, IsTrue, false, length, reverse, slice_index, true};

use super::good_counts::GoodCounts;
use super::holds::{Hold, Step, can_undo, first_step, holds, step_of};
use super::last::has_box;
use super::rows::{Row, is_good_count, rows};
use def_format::PROCESS_LIMIT;
use pd_clock::{Computation, Cut};
use std::alloc::{AllocError, Global};

/// The cut with all events. It takes no memory.
fn whole_cut(alloc: Global, computation: &Computation<'_>) -> Cut
    ensures { result ≡ full_cut computation.now.events }
{
    computation.limits();
    let processes = computation.processes();
    let mut counts = [0; PROCESS_LIMIT];
    for p in 0..processes {
        counts[p] = computation.events(p);
    }
    Cut::new(alloc, &counts[..processes]).unwrap()
}

/// The cut without the last event of process `p`. It takes no memory.
fn without_last(alloc: Global, cut: &Cut, p: usize) -> Cut
    requires few { length cut.now ≤ process_limit }
    requires some { 0 < slice_index cut.now p }
    ensures { result ≡ one_less cut.now p }
{
    let mut low = Cut::new(alloc, cut.counts()).unwrap();
    low.undo(p);
    low
}

/// Whether to undo the last event of process `p` brings it back into an interval.
fn comes_back<G: GoodCounts>(
    computation: &Computation<'_>,
    wanted: &G,
    rows: &[Row],
    counts: &[u64],
    p: usize,
) -> bool
    requires rows { AreRows computation.now.events (G.good wanted.now) rows.now }
    requires within { p < length computation.now.events }
    requires consistent { IsConsistent computation.now.events counts.now }
    requires some { 0 < slice_index counts.now p }
    ensures { IsTrue result ↔ ComesBack (G.good wanted.now) counts.now p }
{
    let count = counts[p];
    !is_good_count(computation, wanted, rows, p, count)
        && is_good_count(computation, wanted, rows, p, count - 1)
}

/// Whether to undo the last event of process `p` leaves a consistent cut without a box, of one that has none. A box is
/// looked for only where the event brings the process back into an interval: else there is none.
fn leaves_no_box<G: GoodCounts>(
    alloc: Global,
    computation: &Computation<'_>,
    wanted: &G,
    rows: &[Row],
    cut: &Cut,
    p: usize,
    holds: &mut [Hold],
    starts: &mut [u64],
    leaves: &mut [u64],
) -> bool
    requires rows { AreRows computation.now.events (G.good wanted.now) rows.now }
    requires within { p < length computation.now.events }
    requires consistent { IsConsistent computation.now.events cut.now }
    requires holds { AreHolds computation.now.events cut.now holds.old }
    requires none { HasNoBox computation.now.events (G.good wanted.now) cut.now }
    requires starts_each { length starts.old ≡ length computation.now.events }
    requires leaves_each { length leaves.old ≡ length computation.now.events }
    ensures yes { result ≡ true → LeavesNoBox computation.now.events (G.good wanted.now) cut.now p }
    ensures no { result ≡ false → ¬ LeavesNoBox computation.now.events (G.good wanted.now) cut.now p }
    ensures holds_same { AreHolds computation.now.events cut.now holds.new }
    ensures starts_same { length starts.new ≡ length starts.old }
    ensures leaves_same { length leaves.new ≡ length leaves.old }
{
    computation.limits();
    if !can_undo(computation, cut, p, holds) {
        return false;
    }
    if !comes_back(computation, wanted, rows, cut.counts(), p) {
        return true;
    }
    let low = without_last(alloc, cut, p);
    !has_box(computation, wanted, rows, low.counts(), p, starts, leaves)
}

/// The least process whose last event can be undone so that a consistent cut without a box is left, of one that has
/// none. The two lists are there to be written to, here and below.
fn least_leaving<G: GoodCounts>(
    alloc: Global,
    computation: &Computation<'_>,
    wanted: &G,
    rows: &[Row],
    cut: &Cut,
    holds: &mut [Hold],
    starts: &mut [u64],
    leaves: &mut [u64],
) -> usize
    requires rows { AreRows computation.now.events (G.good wanted.now) rows.now }
    requires consistent { IsConsistent computation.now.events cut.now }
    requires holds { AreHolds computation.now.events cut.now holds.old }
    requires none { HasNoBox computation.now.events (G.good wanted.now) cut.now }
    requires some { (p : ℕ) × (p < length cut.now) × LeavesNoBox computation.now.events (G.good wanted.now) cut.now p }
    requires starts_each { length starts.old ≡ length computation.now.events }
    requires leaves_each { length leaves.old ≡ length computation.now.events }
    ensures leaves { LeavesNoBox computation.now.events (G.good wanted.now) cut.now result }
    ensures least { (q : ℕ) → q < result → ¬ LeavesNoBox computation.now.events (G.good wanted.now) cut.now q }
    ensures holds_same { AreHolds computation.now.events cut.now holds.new }
    ensures starts_same { length starts.new ≡ length starts.old }
    ensures leaves_same { length leaves.new ≡ length leaves.old }
{
    computation.limits();
    let mut p = 0;
    while !leaves_no_box(
        alloc,
        computation,
        wanted,
        rows,
        cut,
        p,
        holds,
        starts,
        leaves,
    ) {
        p += 1;
    }
    p
}

/// Whether the next step is that of the last one: more events of its process can be undone, and the next one doesn't
/// bring it back into an interval.
fn goes_on<G: GoodCounts>(
    computation: &Computation<'_>,
    wanted: &G,
    rows: &[Row],
    counts: &[u64],
    last: Step,
) -> bool
    requires rows { AreRows computation.now.events (G.good wanted.now) rows.now }
    requires there { last.process < length computation.now.events }
    requires consistent { IsConsistent computation.now.events counts.now }
    ensures { result ≡ true → (last.stop < slice_index counts.now last.process)
        × (¬ ComesBack (G.good wanted.now) counts.now last.process) }
{
    counts[last.process] > last.stop && !comes_back(computation, wanted, rows, counts, last.process)
}

/// The step of the least process whose last event can be undone so that a consistent cut without a box is left, of one
/// that has none. It is the last step again if that goes on: then no process is looked at.
fn next_step<G: GoodCounts>(
    alloc: Global,
    computation: &Computation<'_>,
    wanted: &G,
    rows: &[Row],
    cut: &Cut,
    last: Step,
    holds: &mut [Hold],
    starts: &mut [u64],
    leaves: &mut [u64],
) -> Step
    requires rows { AreRows computation.now.events (G.good wanted.now) rows.now }
    requires consistent { IsConsistent computation.now.events cut.now }
    requires there { last.process < length computation.now.events }
    requires run { IsRunDown computation.now.events cut.now last.process last.stop }
    requires holds { AreHolds computation.now.events cut.now holds.old }
    requires none { HasNoBox computation.now.events (G.good wanted.now) cut.now }
    requires some { (p : ℕ) × (p < length cut.now) × LeavesNoBox computation.now.events (G.good wanted.now) cut.now p }
    requires starts_each { length starts.old ≡ length computation.now.events }
    requires leaves_each { length leaves.old ≡ length computation.now.events }
    ensures leaves { LeavesNoBox computation.now.events (G.good wanted.now) cut.now result.process }
    ensures least { (q : ℕ) → q < result.process
        → ¬ LeavesNoBox computation.now.events (G.good wanted.now) cut.now q }
    ensures run { IsRunDown computation.now.events cut.now result.process result.stop }
    ensures holds_same { AreHolds computation.now.events cut.now holds.new }
    ensures starts_same { length starts.new ≡ length starts.old }
    ensures leaves_same { length leaves.new ≡ length leaves.old }
{
    if goes_on(computation, wanted, rows, cut.counts(), last) {
        return last;
    }
    let p = least_leaving(alloc, computation, wanted, rows, cut, holds, starts, leaves);
    step_of(computation, cut, holds, p)
}

/// The way from the cut with all events, which has no box, back to the empty one: each step undoes the last event of
/// the least process that leaves a cut without a box. The two lists are there to be written to.
///
/// # Errors
/// An allocation was refused.
fn way_back<G: GoodCounts>(
    alloc: Global,
    computation: &Computation<'_>,
    wanted: &G,
    rows: &[Row],
    holds: &mut [Hold],
    starts: &mut [u64],
    leaves: &mut [u64],
) -> Result<Vec<usize>, AllocError>
    requires rows { AreRows computation.now.events (G.good wanted.now) rows.now }
    requires holds { AreHolds computation.now.events (full_cut computation.now.events) holds.old }
    requires none { HasNoBox computation.now.events (G.good wanted.now) (full_cut computation.now.events) }
    requires starts_each { length starts.old ≡ length computation.now.events }
    requires leaves_each { length leaves.old ≡ length computation.now.events }
    ensures { IfOk result (λ path.
        IsWayBack computation.now.events (G.good wanted.now) (full_cut computation.now.events) path.items) }
{
    computation.limits();
    let mut path = Vec::new(alloc);
    let mut cut = whole_cut(alloc, computation);
    let mut step = first_step(computation);
    let mut events = computation.total();
    while events > 0 {
        events -= 1;
        step = next_step(
            alloc,
            computation,
            wanted,
            rows,
            &cut,
            step,
            holds,
            starts,
            leaves,
        );
        path.push(step.process)?;
        cut.undo(step.process);
    }
    Ok(path)
}

/// The path of the observation that is found so, if the cut with all events has no box: the processes in the order in
/// which their events happen.
///
/// # Errors
/// An allocation was refused.
pub(crate) fn avoiding_path<G: GoodCounts>(
    alloc: Global,
    computation: &Computation<'_>,
    wanted: &G,
) -> Result<Vec<usize>, AllocError>
    requires { HasNoBox computation.now.events (G.good wanted.now) (full_cut computation.now.events) }
    ensures { IfOk result (λ path. IsWayBack computation.now.events (G.good wanted.now)
        (full_cut computation.now.events) (reverse path.items)) }
{
    let rows = rows(alloc, computation, wanted)?;
    let mut starts = vec![in alloc; 0; computation.processes()]?;
    let mut leaves = vec![in alloc; 0; computation.processes()]?;
    let cut = whole_cut(alloc, computation);
    let mut holds = holds(alloc, computation, &cut)?;
    let mut path = way_back(
        alloc,
        computation,
        wanted,
        &rows,
        &mut holds,
        &mut starts,
        &mut leaves,
    )?;
    path.reverse();
    Ok(path)
}
