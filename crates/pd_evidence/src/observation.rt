//! An observation through a cut.
ghost use Rattle.pd_evidence.specs.Steps.{AddsWay};
ghost use Rattle.pd_evidence.specs.Ways.{GoesUp, IsThrough};
ghost use Rattle.def_model.specs.Answers.{cuts_along};
ghost use Rattle.def_model.specs.Cuts.{IsConsistent, empty_cut, full_cut, one_more};
ghost use Rattle.def_model.specs.Events.{event_count};
ghost use Rattle.def_model.specs.Lattice.{IsWithin};
ghost use Rattle.def_model.specs.Observations.{IsObservation};
ghost use Rattle.std.specs.Prelude.{◌≡◌, ◌<◌, ◌↔◌, ℕ, Contains, IfNone, IfOk, IfSome, IsTrue, OnOk, length, slice_index};

use super::path::no_events;
use pd_clock::{Computation, Cut, Place};
use std::alloc::{AllocError, Global};

/// An observation through the cut, as process numbers, counted from 0, in the order in which their events happen: at
/// each step the least process is taken whose next event, added, gives a consistent cut; up to the given cut with
/// events of that cut alone, then up to the full one. It is `None` exactly if the counts aren't those of a consistent
/// cut, which takes no memory. Each step looks at one event of each process at most.
///
/// # Errors
/// Memory was refused.
pub fn through(
    alloc: Global,
    computation: &Computation<'_>,
    cut: &Cut,
) -> Result<Option<Vec<usize>>, AllocError>
    ensures none { (result ≡ Ok None) ↔ ¬ IsConsistent computation.now.events cut.now }
    ensures path { IfOk result (λ found. IfSome found (λ path.
        IsThrough computation.now.events cut.now path.items)) }
    ensures observed { IfOk result (λ found. IfSome found (λ path.
        IsObservation computation.now.events (cuts_along (empty_cut computation.now.events) path.items)
        × Contains (cuts_along (empty_cut computation.now.events) path.items) cut.now)) }
{
    if !computation.consistent(cut) {
        return Ok(None);
    }
    let path = path_through(alloc, computation, cut)?;
    Ok(Some(path))
}

/// The observation through a consistent cut.
fn path_through(
    alloc: Global,
    computation: &Computation<'_>,
    cut: &Cut,
) -> Result<Vec<usize>, AllocError>
    requires { IsConsistent computation.now.events cut.now }
    ensures { IfOk result (λ path. IsThrough computation.now.events cut.now path.items) }
{
    let full = Cut::new(alloc, &all_events(alloc, computation)?)?;
    let mut here = Cut::new(alloc, &no_events(alloc, computation)?)?;
    let mut path = Vec::new(alloc);
    go_up(computation, &mut here, cut, &mut path)?;
    go_up(computation, &mut here, &full, &mut path)?;
    Ok(path)
}

/// The counts of all events.
fn all_events(alloc: Global, computation: &Computation<'_>) -> Result<Vec<u64>, AllocError>
    ensures { IfOk result (λ counts. counts.items ≡ full_cut computation.now.events) }
{
    let mut counts = Vec::new(alloc);
    for p in 0..computation.processes() {
        counts.push(computation.events(p))?;
    }
    Ok(counts)
}

/// Goes from a cut up to one that it is within, by the least way, which is put at the end of the path. After an error
/// neither is used again.
fn go_up(
    computation: &Computation<'_>,
    here: &mut Cut,
    to: &Cut,
    path: &mut Vec<usize>,
) -> Result<(), AllocError>
    requires begins { IsConsistent computation.now.events here.old }
    requires ends { IsConsistent computation.now.events to.now }
    requires within { IsWithin here.old to.now }
    ensures arrives { OnOk result (here.new ≡ to.now) }
    ensures way { OnOk result (AddsWay computation.now.events here.old to.now path.old.items path.new.items) }
{
    // the laws that the proof uses
    def_model::lattice();
    computation.limits();
    while let Some(p) = least_up(computation, here, to) {
        path.push(p)?;
        here.redo(p);
    }
    Ok(())
}

/// The least process whose next event, added, gives a consistent cut with events of the other cut alone.
fn least_up(computation: &Computation<'_>, here: &Cut, to: &Cut) -> Option<usize>
    requires consistent { IsConsistent computation.now.events here.now }
    requires ends { IsConsistent computation.now.events to.now }
    ensures goes { IfSome result (GoesUp computation.now.events here.now to.now) }
    ensures least { IfSome result (λ p. (q : ℕ) → q < p → ¬ GoesUp computation.now.events here.now to.now q) }
    ensures none { IfNone result ((p : ℕ) → ¬ GoesUp computation.now.events here.now to.now p) }
{
    for p in 0..computation.processes() {
        if goes_up(computation, here, to, p) {
            return Some(p);
        }
    }
    None
}

/// Whether the other cut has the next event of process `p`, and that event, added, gives a consistent cut.
fn goes_up(computation: &Computation<'_>, here: &Cut, to: &Cut, p: usize) -> bool
    requires process { p < length computation.now.events }
    requires consistent { IsConsistent computation.now.events here.now }
    requires ends { IsConsistent computation.now.events to.now }
    ensures { IsTrue result ↔ GoesUp computation.now.events here.now to.now p }
{
    here.counts()[p] < to.counts()[p] && has_send(computation, here, p)
}

/// Whether the next event of process `p`, added, gives a consistent cut: if it is no receipt, or its send is in the
/// cut.
fn has_send(computation: &Computation<'_>, here: &Cut, p: usize) -> bool
    requires process { p < length computation.now.events }
    requires consistent { IsConsistent computation.now.events here.now }
    requires room { slice_index here.now p < event_count computation.now.events p }
    ensures { IsTrue result ↔ IsConsistent computation.now.events (one_more here.now p) }
{
    computation.limits();
    let counts = here.counts();
    let next = Place {
        process: p,
        number: counts[p] + 1,
    };
    match computation.sender(next) {
        Some(send) => send.number <= counts[send.process],
        None => true,
    }
}
