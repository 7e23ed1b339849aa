//! Whether some receipts are enough.
ghost use Rattle.judge_causes.specs.Asked.{FitsAsked, asked_predicate, asked_run};
ghost use Rattle.judge_causes.specs.Search.{IsTrial, IsTrialOf};
ghost use Rattle.def_model.specs.Decided.{DecidesPossibly, HasFewTerms, IsOfTwo};
ghost use Rattle.def_model.specs.Predicates.{Predicate, Recorded, test_of};
ghost use Rattle.def_wide.specs.Parts.{IsFirstIfAny};
ghost use Rattle.pd_clock.specs.Orders.{places_view};
ghost use Rattle.pd_pred.specs.Views.{predicate_view};
ghost use Rattle.wide_sums.specs.TermVerdicts.{IsVerdict};
ghost use Rattle.std.specs.Prelude.{IfOk};

use super::Asked;
use super::reduce::reduced_of;
use pd_clock::{Computation, Cut, Place};
use pd_match::match_messages;
use pd_pred::Pred;
use std::alloc::{AllocError, Global};
use std::random::RandomSource;
use wide_pairs::{first_of_two, is_of_two};
use wide_sums::{Verdict, verdict_by_sums};
use wide_terms::{first_by_terms, has_few_terms};

/// What is found of some receipts.
#[derive(Clone, Copy)]
pub(crate) enum Trial {
    /// They are enough.
    Enough,
    /// They aren't enough.
    NotEnough,
    /// It isn't decided whether they are.
    Undecided,
}

/// What the first consistent cut that satisfies says, if there is any.
fn trial_by_first(first: &Option<Cut>) -> Trial
    ensures { (r : Recorded) (predicate : Predicate) → IsFirstIfAny r.events (test_of r predicate) first.now
        → IsTrialOf r predicate result }
{
    match first {
        Some(_) => Trial::NotEnough,
        None => Trial::Enough,
    }
}

/// What sums say of a predicate that isn't decided otherwise.
fn trial_by_verdict(verdict: Verdict) -> Trial
    ensures { (r : Recorded) (predicate : Predicate) → ¬ DecidesPossibly r predicate → IsVerdict r predicate verdict
        → IsTrialOf r predicate result }
{
    match verdict {
        Verdict::Undecided => Trial::Undecided,
        Verdict::Unsatisfied => Trial::Enough,
        Verdict::Satisfied => Trial::NotEnough,
    }
}

/// What is found of a predicate that has few terms.
fn trial_by_terms(
    alloc: Global,
    computation: &Computation<'_>,
    pred: &Pred,
) -> Result<Trial, AllocError>
    requires { HasFewTerms (predicate_view pred.now) }
    ensures { IfOk result (IsTrialOf computation.now (predicate_view pred.now)) }
{
    let first = first_by_terms(alloc, computation, pred.tree(), false)?;
    let trial = trial_by_first(&first);
    Ok(trial)
}

/// What is found of a predicate of two processes.
fn trial_of_two(
    alloc: Global,
    computation: &Computation<'_>,
    pred: &Pred,
) -> Result<Trial, AllocError>
    requires { IsOfTwo computation.now.events (predicate_view pred.now) }
    ensures { IfOk result (IsTrialOf computation.now (predicate_view pred.now)) }
{
    let first = first_of_two(alloc, computation, pred.tree(), false)?;
    let trial = trial_by_first(&first);
    Ok(trial)
}

/// What is found of another predicate.
fn trial_by_sums(
    alloc: Global,
    computation: &Computation<'_>,
    pred: &Pred,
) -> Result<Trial, AllocError>
    requires { ¬ DecidesPossibly computation.now (predicate_view pred.now) }
    ensures { IfOk result (IsTrialOf computation.now (predicate_view pred.now)) }
{
    let verdict = verdict_by_sums(alloc, computation, pred.tree())?;
    let trial = trial_by_verdict(verdict);
    Ok(trial)
}

/// What is found of a computation: whether no consistent cut of it satisfies the predicate. Terms come first, since
/// they take time for the events, and the counts of two processes for their pairs.
///
/// # Errors
/// An allocation was refused.
pub(crate) fn trial_of(
    alloc: Global,
    computation: &Computation<'_>,
    pred: &Pred,
) -> Result<Trial, AllocError>
    ensures { IfOk result (IsTrialOf computation.now (predicate_view pred.now)) }
{
    if has_few_terms(pred.tree(), false) {
        return trial_by_terms(alloc, computation, pred);
    }
    if is_of_two(computation, pred.tree()) {
        return trial_of_two(alloc, computation, pred);
    }
    trial_by_sums(alloc, computation, pred)
}

/// Tries whether these receipts are enough: the messages of the run without the others are matched anew, and its clocks
/// and states computed. It takes time for all events.
///
/// # Errors
/// An allocation was refused.
pub(crate) fn try_receipts<R: RandomSource>(
    rt: &R,
    alloc: Global,
    asked: &Asked<'_>,
    kept: &[Place],
) -> Result<Trial, AllocError>
    requires { FitsAsked asked.now }
    ensures { IfOk result (IsTrial (asked_run asked.now) (asked_predicate asked.now) (places_view kept.now)) }
{
    let traces = reduced_of(alloc, asked.traces, kept)?;
    // The run is well-formed, so what is left of it is too: a fault is that memory ran out.
    let Ok(matched) = match_messages(rt, alloc, asked.spec.version(), &traces) else {
        return Err(AllocError);
    };
    let Ok(computation) = Computation::build(alloc, asked.spec, &traces, matched) else {
        return Err(AllocError);
    };
    trial_of(alloc, &computation, asked.pred)
}
