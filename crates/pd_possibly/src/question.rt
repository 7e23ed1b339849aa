//! The question and its answer.
ghost use Rattle.def_format.specs.Limits.{worker_limit};
ghost use Rattle.walk_back.specs.Answers.{possibly_answer_view};
ghost use Rattle.def_model.specs.Answers.{IsPossiblyAnswer};
ghost use Rattle.def_model.specs.Predicates.{test_of};
ghost use Rattle.pd_possibly.specs.Observed.{IsObservedAnswer};
ghost use Rattle.pd_pred.specs.Views.{predicate_view};
ghost use Rattle.std.specs.Prelude.{◌≤◌, IfOk};

use pd_clock::Computation;
use pd_expand::Crew;
use pd_level::Gate;
use pd_pred::Pred;
use std::alloc::{AllocError, Global};
use std::sync::Wait;
use std::thread::Threads;
use walk::answer_possibly;
use walk_back::PossiblyAnswer;

/// The answer for a predicate over a computation, under a bound on the width of the levels, from 1 on. From 1 to 16
/// workers share the work on a level that has enough cuts, each on a thread of its own. A worker calls the gate before
/// it expands a block of the level. Neither the workers nor the gate change the answer.
///
/// Source: Cooper and Marzullo, Consistent Detection of Global Predicates, 1991.
///
/// # Errors
/// An allocation was refused.
pub fn possibly<T: Threads + Wait + Sync, G: Gate + Sync>(
    rt: &T,
    alloc: Global,
    computation: &Computation<'_>,
    pred: &Pred,
    width: u64,
    workers: u64,
    gate: &G,
) -> Result<PossiblyAnswer, AllocError>
    requires wide { 1 ≤ width }
    requires some_workers { 1 ≤ workers }
    requires few_workers { workers ≤ worker_limit }
    ensures right { IfOk result (λ answer. IsPossiblyAnswer computation.now.events
        (test_of computation.now (predicate_view pred.now)) width (possibly_answer_view answer)) }
    // The same in the wording of observations.
    ensures observed { IfOk result (λ answer. IsObservedAnswer computation.now.events
        (test_of computation.now (predicate_view pred.now)) (possibly_answer_view answer)) }
{
    // the laws that the proof uses
    def_model::observed();
    computation.limits();
    let crew = Crew::new(rt, workers, gate);
    let answer = answer_possibly(&crew, alloc, computation, pred, width)?;
    Ok(answer)
}
