//! A path as evidence that some observation has no satisfying cut.
ghost use Rattle.def_model.specs.Paths.{IsAvoidingCut};
ghost use Rattle.def_model.specs.Answers.{IsAvoidingObservation};
ghost use Rattle.def_model.specs.Cuts.{FitsProcesses, empty_cut, full_cut, one_more};
ghost use Rattle.def_model.specs.Predicates.{test_of};
ghost use Rattle.pd_pred.specs.Views.{predicate_view};
ghost use Rattle.std.specs.Prelude.{◌≡◌, ◌<◌, ◌↔◌, IfOk, IsTrue, Ok, length, true};

use super::cut::satisfies;
use pd_clock::{Computation, Cut};
use pd_pred::Pred;
use std::alloc::{AllocError, Global};

/// Whether the process numbers, counted from 0, name an observation with no satisfying cut: from the cut with no event
/// each adds one event of its process, up to the cut with all. A process that isn't there, a step that leaves no
/// consistent cut, and a path that ends early or goes on too long make none.
///
/// # Errors
/// Memory was refused.
pub fn check_path(
    alloc: Global,
    computation: &Computation<'_>,
    pred: &Pred,
    path: &[usize],
) -> Result<bool, AllocError>
    ensures { IfOk result (λ good. IsTrue good
        ↔ IsAvoidingObservation computation.now.events (test_of computation.now (predicate_view pred.now)) path.now) }
{
    let mut counts = no_events(alloc, computation)?;
    if !avoids(alloc, computation, pred, &counts)? {
        return Ok(false);
    }
    for p in path {
        if !step(alloc, computation, pred, &mut counts, *p)? {
            return Ok(false);
        }
    }
    Ok(is_full(computation, &counts))
}

/// The counts of no event.
pub(crate) fn no_events(
    alloc: Global,
    computation: &Computation<'_>,
) -> Result<Vec<u64>, AllocError>
    ensures { IfOk result (λ counts. counts.items ≡ empty_cut computation.now.events) }
{
    vec![in alloc; 0; computation.processes()]
}

/// Whether the counts are those of a consistent cut that doesn't satisfy.
fn avoids(
    alloc: Global,
    computation: &Computation<'_>,
    pred: &Pred,
    counts: &[u64],
) -> Result<bool, AllocError>
    ensures { IfOk result (λ good. IsTrue good
        ↔ IsAvoidingCut computation.now.events (test_of computation.now (predicate_view pred.now)) counts.now) }
{
    let here = Cut::new(alloc, counts)?;
    Ok(computation.consistent(&here) && !satisfies(computation, pred, &here))
}

/// Adds the next event of process `p`. Whether there was one and the counts are those of a consistent cut that doesn't
/// satisfy.
fn step(
    alloc: Global,
    computation: &Computation<'_>,
    pred: &Pred,
    counts: &mut [u64],
    p: usize,
) -> Result<bool, AllocError>
    requires { FitsProcesses computation.now.events counts.old }
    ensures exact { IfOk result (λ good. IsTrue good
        ↔ ((p < length counts.old) × IsAvoidingCut computation.now.events
        (test_of computation.now (predicate_view pred.now)) (one_more counts.old p))) }
    ensures taken { result ≡ Ok true → counts.new ≡ one_more counts.old p }
{
    if p < counts.len() && counts[p] < computation.events(p) {
        counts[p] += 1;
        avoids(alloc, computation, pred, counts)
    } else {
        Ok(false)
    }
}

/// Whether the counts are those of all events.
fn is_full(computation: &Computation<'_>, counts: &[u64]) -> bool
    requires { length counts.now ≡ length computation.now.events }
    ensures { IsTrue result ↔ (counts.now ≡ full_cut computation.now.events) }
{
    for p in 0..counts.len() {
        if counts[p] != computation.events(p) {
            return false;
        }
    }
    true
}
