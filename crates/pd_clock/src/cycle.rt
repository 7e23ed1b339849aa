//! The causal cycle that is reported.
ghost use Rattle.pd_clock.specs.Orders.{LeavesStuck, places_view};
ghost use Rattle.read_traces.specs.Views.{computation_view};
ghost use Rattle.pd_match.specs.Views.{place_view};
ghost use Rattle.def_model.specs.Events as events;
ghost use Rattle.def_model.specs.Events.{place};
ghost use Rattle.def_model.specs.Messages.{IsMessageList};
ghost use Rattle.def_model.specs.Order.{GoesBackTo, HasNoCycle, IsFirstStuck, IsLeastStuck, IsReportedCycle, IsStuck};
ghost use Rattle.std.specs.Prelude.{◌≡◌, ◌==◌, ◌<◌, ℕ, IfOk, IfNone, IfSome, drop, length, position};

use pd_match::{Matched, Place};
use read_traces::Trace;
use std::alloc::{AllocError, Global};

/// The cycle that is reported, if there is one: `done` has for each process how many of its first events are not stuck
/// on a causal cycle or after one.
pub fn reported_cycle(
    alloc: Global,
    traces: &[Trace],
    matched: &Matched,
    done: &[u64],
) -> Result<Option<Vec<Place>>, AllocError>
    requires messages { IsMessageList (computation_view traces.now) matched.now }
    requires stuck { LeavesStuck (computation_view traces.now) done.now }
    ensures none { IfOk result (λ cycle. IfNone cycle (HasNoCycle (computation_view traces.now))) }
    ensures some { IfOk result (λ cycle.
        IfSome cycle (λ places. IsReportedCycle (computation_view traces.now) (places_view places.items))) }
{
    match least_stuck(traces, done) {
        Some(first) => Ok(Some(cycle_from(alloc, traces, matched, done, first)?)),
        None => Ok(None),
    }
}

/// The first stuck event of the least process that has one, if any has.
fn least_stuck(traces: &[Trace], done: &[u64]) -> Option<Place>
    requires { LeavesStuck (computation_view traces.now) done.now }
    ensures some { IfSome result (λ first. IsLeastStuck (computation_view traces.now) (place_view first)) }
    ensures none { IfNone result ((e : events.Place) → ¬ IsStuck (computation_view traces.now) e) }
{
    for p in 0..traces.len() {
        if let Some(first) = first_stuck(traces, done, p) {
            return Some(first);
        }
    }
    None
}

/// The first stuck event of process `p`, if it has one.
fn first_stuck(traces: &[Trace], done: &[u64], p: usize) -> Option<Place>
    requires within { p < length traces.now }
    requires stuck { LeavesStuck (computation_view traces.now) done.now }
    ensures process { IfSome result (λ first. first.process ≡ p) }
    ensures some { IfSome result (λ first. IsFirstStuck (computation_view traces.now) (place_view first)) }
    ensures none { IfNone result ((n : ℕ) → ¬ IsStuck (computation_view traces.now) (place p n)) }
{
    if done[p] < traces[p].events.len() as u64 {
        return Some(Place {
            process: p,
            number: done[p] + 1,
        });
    }
    None
}

/// Goes back from `first`, the least stuck event, until a process comes again, and gives the places from that process
/// on.
fn cycle_from(
    alloc: Global,
    traces: &[Trace],
    matched: &Matched,
    done: &[u64],
    first: Place,
) -> Result<Vec<Place>, AllocError>
    requires messages { IsMessageList (computation_view traces.now) matched.now }
    requires stuck { LeavesStuck (computation_view traces.now) done.now }
    requires least { IsLeastStuck (computation_view traces.now) (place_view first) }
    ensures { IfOk result (λ cycle. IsReportedCycle (computation_view traces.now) (places_view cycle.items)) }
{
    let mut taken = Vec::with_capacity(alloc, traces.len())?;
    let mut here = first;
    loop {
        if let Some(start) = place_of(here.process, &taken) {
            return from_place(alloc, &taken, start);
        }
        taken.push(here)?;
        here = first_stuck_of_sender(traces, matched, done, here);
    }
}

/// From a receipt that is the first stuck event of its process to the first stuck event of the process that sent its
/// message.
fn first_stuck_of_sender(traces: &[Trace], matched: &Matched, done: &[u64], receipt: Place) -> Place
    requires messages { IsMessageList (computation_view traces.now) matched.now }
    requires stuck { LeavesStuck (computation_view traces.now) done.now }
    requires receipt { IsFirstStuck (computation_view traces.now) (place_view receipt) }
    ensures { GoesBackTo (computation_view traces.now) (place_view receipt) (place_view result) }
{
    let send = matched.sender(receipt).unwrap();
    first_stuck(traces, done, send.process).unwrap()
}

/// Where the first place of this process is in the list, if it is there.
fn place_of(process: usize, places: &[Place]) -> Option<usize>
    ensures { result ≡ position (λ place. place.process == process) places.now }
{
    places.iter().position(|place| place.process == process)
}

/// The places from this one on.
fn from_place(alloc: Global, places: &[Place], start: usize) -> Result<Vec<Place>, AllocError>
    requires { start < length places.now }
    ensures { IfOk result (λ rest. rest.items ≡ drop start places.now) }
{
    Vec::from_slice(alloc, &places[start..])
}
