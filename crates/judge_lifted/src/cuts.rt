//! A cut of the run by a cut of the reduction.
//!
//! In a reduction the kept events are those that send. So a cut of it says how many kept events each process has, and
//! the cut of the run has these, and all that happened before them. No clause says that: what is made of the counts is
//! looked at once it is made.
ghost use Rattle.std.specs.Prelude.{◌<◌, length};

use pd_clock::{Computation, Place};
use read_traces::{Events, Kind, Trace};
use std::alloc::{AllocError, Global};

/// How many of the first events, this many, send.
fn sends_among(events: &Events, count: u64) -> u64 {
    let mut sends = 0u64;
    for k in 0..events.len() {
        if k as u64 >= count {
            return sends;
        }
        match events.kind(k) {
            Kind::Send(_) => sends = sends.saturating_add(1),
            Kind::Recv(_) | Kind::Local => {}
        }
    }
    sends
}

/// The number of the last kept event that process `p` has at a cut of the reduction, if it has one.
fn last_kept(numbers: &[Vec<u64>], traces: &[Trace], counts: &[u64], p: usize) -> Option<u64> {
    let trace = traces.get(p)?;
    let count = counts.get(p)?;
    let kept = numbers.get(p)?;
    let rank = sends_among(&trace.events, *count).checked_sub(1)?;
    kept.get(rank as usize).copied()
}

/// The last kept event of each process that has one at a cut of the reduction.
fn last_events(
    alloc: Global,
    numbers: &[Vec<u64>],
    traces: &[Trace],
    counts: &[u64],
) -> Result<Vec<Place>, AllocError> {
    let mut events = Vec::with_capacity(alloc, numbers.len())?;
    for process in 0..numbers.len() {
        if let Some(number) = last_kept(numbers, traces, counts, process) {
            events.push(Place { process, number })?;
        }
    }
    Ok(events)
}

/// How many events of process `q` are this event or happened before it; 0 if there is no such event.
fn known_count(computation: &Computation<'_>, event: Place, q: usize) -> u64
    requires { q < length computation.now.events }
{
    if computation.has(event) {
        computation.clock(event, q)
    } else {
        0
    }
}

/// How many events of process `q` are one of these events or happened before one of them.
fn joined_count(computation: &Computation<'_>, events: &[Place], q: usize) -> u64
    requires { q < length computation.now.events }
{
    let mut count = 0u64;
    for event in events {
        count = count.max(known_count(computation, *event, q));
    }
    count
}

/// The counts of the least cut of the run that has the kept events of a cut of the reduction. The traces are those of
/// the reduction, the counts those of its cut, and the numbers those of the run's kept events.
///
/// # Errors
/// An allocation was refused.
pub(crate) fn lifted_counts(
    alloc: Global,
    computation: &Computation<'_>,
    numbers: &[Vec<u64>],
    traces: &[Trace],
    counts: &[u64],
) -> Result<Vec<u64>, AllocError> {
    let events = last_events(alloc, numbers, traces, counts)?;
    let mut lifted = Vec::with_capacity(alloc, computation.processes())?;
    for q in 0..computation.processes() {
        lifted.push(joined_count(computation, &events, q))?;
    }
    Ok(lifted)
}
