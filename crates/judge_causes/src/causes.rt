//! Why no consistent cut of a run satisfies a predicate.
ghost use Rattle.judge_causes.specs.Asked.{FitsAsked, asked_predicate, asked_run};
ghost use Rattle.judge_causes.specs.Causes.{AreCauses, IsDecidedNo};
ghost use Rattle.def_model.specs.Observations.{Possibly};
ghost use Rattle.def_model.specs.Predicates.{test_of};
ghost use Rattle.pd_clock.specs.Orders.{places_view};
ghost use Rattle.std.specs.Prelude.{◌≡◌, IfNone, IfOk, IfSome};

use super::Asked;
use super::receipts::receipts_of;
use super::search::{Causes, search_from};
use super::trial::{Trial, trial_of};
use pd_clock::Computation;
use std::alloc::{AllocError, Global};
use std::random::RandomSource;

/// The causes, among all receipts of the run.
fn causes_in<R: RandomSource>(
    rt: &R,
    alloc: Global,
    asked: &Asked<'_>,
    trials: u64,
) -> Result<Causes, AllocError>
    requires fit { FitsAsked asked.now }
    requires none { ¬ Possibly (asked_run asked.now).events
        (test_of (asked_run asked.now) (asked_predicate asked.now)) }
    ensures { IfOk result (λ causes. AreCauses (asked_run asked.now) (asked_predicate asked.now)
        (places_view causes.receipts.items) causes.are_needed) }
{
    let receipts = receipts_of(alloc, asked.traces)?;
    search_from(rt, alloc, asked, receipts, trials)
}

/// Why no consistent cut of a run satisfies a predicate: receipts of the run that are enough for that, and each of them
/// needed if the trials suffice. There is nothing if some cut satisfies, or if it isn't decided whatever the width that
/// none does.
///
/// A trial takes time for all events, and as much as the predicate takes whatever the width. Each receipt that is found
/// takes as many as a binary search among all receipts, and one more.
///
/// # Errors
/// An allocation was refused.
pub fn causes_of<R: RandomSource>(
    rt: &R,
    alloc: Global,
    asked: &Asked<'_>,
    computation: &Computation<'_>,
    trials: u64,
) -> Result<Option<Causes>, AllocError>
    requires fit { FitsAsked asked.now }
    requires recorded { computation.now ≡ asked_run asked.now }
    ensures some { IfOk result (λ found. IfSome found (λ causes. AreCauses (asked_run asked.now)
        (asked_predicate asked.now) (places_view causes.receipts.items) causes.are_needed)) }
    ensures none { IfOk result (λ found. IfNone found
        (¬ IsDecidedNo (asked_run asked.now) (asked_predicate asked.now))) }
{
    let trial = trial_of(alloc, computation, asked.pred)?;
    match trial {
        Trial::Enough => {
            let causes = causes_in(rt, alloc, asked, trials)?;
            Ok(Some(causes))
        }
        Trial::NotEnough => Ok(None),
        Trial::Undecided => Ok(None),
    }
}
