//! Least consistent cuts in which processes have some events at least.
ghost use Rattle.wide_pairs.specs.LeastCuts.{ArePasts, IsLeastWithBoth, IsTakenIn};
ghost use Rattle.wide_conjunctions.specs.Raises.{IsRaised};
ghost use Rattle.pd_match.specs.Views.{place_view};
ghost use Rattle.def_model.specs.Cuts.{IsConsistent, empty_cut};
ghost use Rattle.def_model.specs.Events.{IsEvent, event_count};
ghost use Rattle.std.specs.Prelude.{◌≡◌, ◌<◌, ◌≤◌, IfOk, length};

use pd_clock::{Computation, Cut, Place};
use std::alloc::{AllocError, Global};

/// Takes an event, and all that happened before it, into the counts.
fn include(computation: &Computation<'_>, place: Place, counts: &mut [u64])
    requires event { IsEvent computation.now.events (place_view place) }
    requires one_each { length counts.old ≡ length computation.now.events }
    ensures { IsRaised computation.now.events (place_view place) counts.old counts.new }
{
    for r in 0..counts.len() {
        let past = computation.clock(place, r);
        counts[r] = counts[r].max(past);
    }
}

/// Takes the first `count` events of process `p`, and all that happened before them, into the counts of a consistent
/// cut.
fn take_in(computation: &Computation<'_>, p: usize, count: u64, counts: &mut [u64])
    requires consistent { IsConsistent computation.now.events counts.old }
    requires there { p < length computation.now.events }
    requires within { count ≤ event_count computation.now.events p }
    ensures { IsTakenIn computation.now.events p count counts.old counts.new }
{
    computation.limits();
    if count > 0 {
        let place = Place {
            process: p,
            number: count,
        };
        include(computation, place, counts);
    }
}

/// A count of 0 for each process.
fn no_events(alloc: Global, computation: &Computation<'_>) -> Result<Vec<u64>, AllocError>
    ensures { IfOk result (λ counts. counts.items ≡ empty_cut computation.now.events) }
{
    vec![in alloc; 0; computation.processes()]
}

/// For each count of process `p`, from 0, how many events of process `q` happened before its last counted event, or are
/// that event. The counts are none at first, and then those of the least cut with the events of `p` so far.
///
/// # Errors
/// An allocation was refused.
fn pasts_over(
    alloc: Global,
    computation: &Computation<'_>,
    p: usize,
    q: usize,
    counts: &mut [u64],
) -> Result<Vec<u64>, AllocError>
    requires first { p < length computation.now.events }
    requires second { q < length computation.now.events }
    requires empty { counts.old ≡ empty_cut computation.now.events }
    ensures { IfOk result (λ pasts. ArePasts computation.now.events p q pasts.items) }
{
    computation.limits();
    let end = computation.events(p) + 1;
    let mut pasts = Vec::with_capacity(alloc, end as usize)?;
    for count in 0..end {
        take_in(computation, p, count, counts);
        pasts.push(counts[q])?;
    }
    Ok(pasts)
}

/// For each count of process `p`, from 0, how many events of process `q` happened before its last counted event, or are
/// that event: those that each consistent cut with this count has.
///
/// # Errors
/// An allocation was refused.
pub(crate) fn pasts(
    alloc: Global,
    computation: &Computation<'_>,
    p: usize,
    q: usize,
) -> Result<Vec<u64>, AllocError>
    requires first { p < length computation.now.events }
    requires second { q < length computation.now.events }
    ensures { IfOk result (λ pasts. ArePasts computation.now.events p q pasts.items) }
{
    let mut counts = no_events(alloc, computation)?;
    pasts_over(alloc, computation, p, q, &mut counts)
}

/// Takes the first `i` events of process `p` and the first `j` of process `q` into the counts, which are none at first,
/// with all that happened before them.
fn take_in_both(
    computation: &Computation<'_>,
    p: usize,
    q: usize,
    i: u64,
    j: u64,
    counts: &mut [u64],
)
    requires first { p < length computation.now.events }
    requires second { q < length computation.now.events }
    requires within { i ≤ event_count computation.now.events p }
    requires within_too { j ≤ event_count computation.now.events q }
    requires empty { counts.old ≡ empty_cut computation.now.events }
    ensures both { IsLeastWithBoth computation.now.events p q i j counts.new }
    ensures same { length counts.new ≡ length counts.old }
{
    take_in(computation, p, i, counts);
    take_in(computation, q, j, counts);
}

/// The least consistent cut in which processes `p` and `q` have `i` and `j` events at least.
///
/// # Errors
/// An allocation was refused.
pub(crate) fn least_with_both(
    alloc: Global,
    computation: &Computation<'_>,
    p: usize,
    q: usize,
    i: u64,
    j: u64,
) -> Result<Cut, AllocError>
    requires first { p < length computation.now.events }
    requires second { q < length computation.now.events }
    requires within { i ≤ event_count computation.now.events p }
    requires within_too { j ≤ event_count computation.now.events q }
    ensures { IfOk result (IsLeastWithBoth computation.now.events p q i j) }
{
    let mut counts = no_events(alloc, computation)?;
    take_in_both(computation, p, q, i, j, &mut counts);
    Cut::new(alloc, &counts)
}
