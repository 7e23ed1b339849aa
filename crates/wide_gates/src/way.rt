//! The cuts on the way back from the full cut.
ghost use Rattle.def_model.specs.Cuts.{IsConsistent, full_cut};
ghost use Rattle.def_wide.specs.Tried.{IsOnWayBack, LeavesConsistent};
ghost use Rattle.pd_pred.specs.Views.{predicate_view};
ghost use Rattle.wide_gates.specs.Seen.{AfterBest, IsFirstSeen, IsGood, IsLeastLeaving};
ghost use Rattle.std.specs.Prelude.{◌≡◌, IfOk, IfSome, MatchOption, ℕ};

use super::seen::better;
use pd_clock::{Computation, Cut};
use pd_pred::Pred;
use std::alloc::{AllocError, Global};

/// The cut with all events.
fn whole_cut(alloc: Global, computation: &Computation<'_>) -> Result<Cut, AllocError>
    ensures { IfOk result (λ cut. cut ≡ full_cut computation.now.events) }
{
    let mut counts = Vec::new(alloc);
    for p in 0..computation.processes() {
        counts.push(computation.events(p))?;
    }
    let cut = Cut::new(alloc, &counts)?;
    Ok(cut)
}

/// The least process whose last event can be undone so that a consistent cut is left.
fn least_leaving(computation: &Computation<'_>, cut: &Cut) -> Option<usize>
    requires { IsConsistent computation.now.events cut.now }
    ensures { MatchOption result ((p : ℕ) → ¬ LeavesConsistent computation.now.events cut.now p)
        (IsLeastLeaving computation.now.events cut.now) }
{
    for p in 0..computation.processes() {
        if computation.can_undo(cut, p) {
            return Some(p);
        }
    }
    None
}

/// The first good cut of the best one so far and those on the way back from the full cut, of which each step undoes the
/// last event of the least process that leaves a consistent cut.
///
/// # Errors
/// An allocation was refused.
pub(crate) fn look_back(
    alloc: Global,
    computation: &Computation<'_>,
    pred: &Pred,
    best: Option<Cut>,
) -> Result<Option<Cut>, AllocError>
    requires { IfSome best (IsGood computation.now (predicate_view pred.now)) }
    ensures { IfOk result (IsFirstSeen computation.now (predicate_view pred.now)
        (AfterBest best (IsOnWayBack computation.now.events))) }
{
    computation.limits();
    let mut found = best;
    let mut cut = whole_cut(alloc, computation)?;
    loop {
        let copy = Cut::new(alloc, cut.counts())?;
        found = better(computation, pred, found, copy);
        match least_leaving(computation, &cut) {
            Some(p) => cut.undo(p),
            None => return Ok(found),
        }
    }
}
