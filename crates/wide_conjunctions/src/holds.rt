//! What keeps the last event of a process from being undone.
ghost use Rattle.wide_conjunctions.specs.Holds.{AreHolds, CanUndo, IsHold, IsNeeded, IsNeeding, IsRunDown};
ghost use Rattle.def_model.specs.Cuts.{IsConsistent, full_cut};
ghost use Rattle.def_model.specs.Events.{event_count};
ghost use Rattle.std.specs.Prelude.{◌≡◌, ◌<◌, ◌≤◌, ◌↔◌, IfOk, IsTrue, length, slice_index, true};

use pd_clock::{Computation, Cut, Place};
use std::alloc::{AllocError, Global};

/// What is known of a process in the cut at hand and in those within it. If it has more than `low` events there, its
/// last one can be undone. If it has no more, it can't be as long as process `process` has `number` events or more.
#[derive(Clone, Copy)]
pub(crate) struct Hold {
    low: u64,
    process: usize,
    number: u64,
}

/// A process, and a count of it: as long as it has more events than that, and no event of another one is undone, its
/// last event can be undone, and none of a process before it.
#[derive(Clone, Copy)]
pub(crate) struct Step {
    pub(crate) process: usize,
    pub(crate) stop: u64,
}

/// How many events of process `p` the last event of process `q` has in its past, or 0 if `q` is `p` or has no event.
fn needed(computation: &Computation<'_>, counts: &[u64], q: usize, p: usize) -> u64
    requires consistent { IsConsistent computation.now.events counts.now }
    requires there { q < length computation.now.events }
    requires within { p < length computation.now.events }
    ensures { IsNeeded computation.now.events counts.now q p result }
{
    if q == p || counts[q] == 0 {
        return 0;
    }
    let place = Place {
        process: q,
        number: counts[q],
    };
    computation.clock(place, p)
}

/// An event of process `q` that has `low` events of process `p` or more in its past, by its number: the first one, of
/// those up to event `number`, which has as many.
fn first_needing(computation: &Computation<'_>, q: usize, number: u64, p: usize, low: u64) -> u64
    requires there { q < length computation.now.events }
    requires within { p < length computation.now.events }
    requires last { number ≤ event_count computation.now.events q }
    requires some { IsNeeding computation.now.events q number p low }
    ensures needing { IsNeeding computation.now.events q result p low }
    ensures up_to { result ≤ number }
{
    let mut below = 0;
    let mut first = number;
    while first - below > 1 {
        let middle = below + (first - below) / 2;
        let place = Place {
            process: q,
            number: middle,
        };
        if computation.clock(place, p) >= low {
            first = middle;
        } else {
            below = middle;
        }
    }
    first
}

/// What is known of process `p`.
fn hold_of(computation: &Computation<'_>, counts: &[u64], p: usize) -> Hold
    requires consistent { IsConsistent computation.now.events counts.now }
    requires within { p < length computation.now.events }
    ensures hold { IsHold computation.now.events counts.now p result }
    ensures here { result.number ≤ slice_index counts.now result.process }
{
    computation.limits();
    let mut low = 0;
    let mut process = p;
    for q in 0..counts.len() {
        let count = needed(computation, counts, q, p);
        if count > low {
            low = count;
            process = q;
        }
    }
    if low == 0 {
        return Hold {
            low,
            process,
            number: 0,
        };
    }
    let number = first_needing(computation, process, counts[process], p, low);
    Hold {
        low,
        process,
        number,
    }
}

/// What is known of each process.
///
/// # Errors
/// An allocation was refused.
pub(crate) fn holds(
    alloc: Global,
    computation: &Computation<'_>,
    cut: &Cut,
) -> Result<Vec<Hold>, AllocError>
    requires { IsConsistent computation.now.events cut.now }
    ensures { IfOk result (λ holds. AreHolds computation.now.events cut.now holds.items) }
{
    let mut holds = Vec::new(alloc);
    for p in 0..computation.processes() {
        holds.push(hold_of(computation, cut.counts(), p))?;
    }
    Ok(holds)
}

/// Whether the last event of process `p` can be undone. If what is known of the process doesn't say it, the clocks are
/// looked at again.
pub(crate) fn can_undo(
    computation: &Computation<'_>,
    cut: &Cut,
    p: usize,
    holds: &mut [Hold],
) -> bool
    requires consistent { IsConsistent computation.now.events cut.now }
    requires within { p < length computation.now.events }
    requires holds { AreHolds computation.now.events cut.now holds.old }
    ensures answer { IsTrue result ↔ CanUndo computation.now.events cut.now p }
    ensures same { AreHolds computation.now.events cut.now holds.new }
{
    let counts = cut.counts();
    let hold = holds[p];
    if counts[p] > hold.low {
        return true;
    }
    if counts[hold.process] >= hold.number {
        return false;
    }
    let hold = hold_of(computation, counts, p);
    holds[p] = hold;
    counts[p] > hold.low
}

/// Whether what is known of process `r` says that its last event can't be undone.
fn is_held(counts: &[u64], hold: Hold, r: usize) -> bool
    requires there { r < length counts.now }
    requires within { hold.process < length counts.now }
    ensures { result ≡ true
        → (slice_index counts.now r ≤ hold.low) × (hold.number ≤ slice_index counts.now hold.process) }
{
    counts[r] <= hold.low && hold.number <= counts[hold.process]
}

/// Where a run of process `p` stops that goes no further than one of its events holds another process.
fn stop_for(hold: Hold, p: usize, stop: u64) -> u64
    ensures up { stop ≤ result }
    ensures here { hold.process ≡ p → hold.number ≤ result }
{
    if hold.process == p {
        stop.max(hold.number)
    } else {
        stop
    }
}

/// The count at which a run of process `p` stops: down to it its events can be undone, and none of a process before it.
/// It is the count at hand if what is known of one of these doesn't say so.
fn stop_of(computation: &Computation<'_>, counts: &[u64], holds: &[Hold], p: usize) -> u64
    requires consistent { IsConsistent computation.now.events counts.now }
    requires within { p < length computation.now.events }
    requires holds { AreHolds computation.now.events counts.now holds.now }
    ensures { IsRunDown computation.now.events counts.now p result }
{
    let own = holds[p];
    let mut stop = own.low;
    for r in 0..p {
        let hold = holds[r];
        if !is_held(counts, hold, r) {
            return counts[p];
        }
        stop = stop_for(hold, p, stop);
    }
    stop
}

/// The step of process `p`.
pub(crate) fn step_of(computation: &Computation<'_>, cut: &Cut, holds: &[Hold], p: usize) -> Step
    requires consistent { IsConsistent computation.now.events cut.now }
    requires within { p < length computation.now.events }
    requires holds { AreHolds computation.now.events cut.now holds.now }
    ensures here { result.process ≡ p }
    ensures run { IsRunDown computation.now.events cut.now p result.stop }
{
    let stop = stop_of(computation, cut.counts(), holds, p);
    Step { process: p, stop }
}

/// A step at the cut with all events that says nothing.
pub(crate) fn first_step(computation: &Computation<'_>) -> Step
    ensures there { result.process < length computation.now.events }
    ensures run { IsRunDown computation.now.events (full_cut computation.now.events) result.process result.stop }
{
    computation.limits();
    Step {
        process: 0,
        stop: computation.events(0),
    }
}
