//! The question and its answer.
ghost use Rattle.def_format.specs.Limits.{width_limit, worker_limit};
ghost use Rattle.walk_back.specs.Answers.{IsLeastRoot, IsPastFirst, definitely_answer_view};
ghost use Rattle.def_model.specs.Answers.{IsDefinitelyAnswer};
ghost use Rattle.def_model.specs.Cuts.{total};
ghost use Rattle.def_model.specs.Predicates.{test_of};
ghost use Rattle.pd_pred.specs.Views.{predicate_view};
ghost use Rattle.std.specs.Prelude.{◌+◌, ◌*◌, ◌≤◌, ℕ, IfOk};

use pd_clock::Computation;
use pd_expand::Crew;
use pd_level::Gate;
use pd_pred::Pred;
use std::alloc::{AllocError, Global};
use std::sync::Wait;
use std::thread::Threads;
use walk::answer_one;
use walk_back::{Count, DefinitelyAnswer};

/// The answer for a predicate over a computation, under a bound on the number of the avoiding cuts of a level. From 1
/// to 16 workers share the work on a level that has enough cuts, each on a thread of its own. A worker calls the gate
/// before it expands a block of the level. Neither the workers nor the gate change the answer.
///
/// Source: Cooper and Marzullo, Consistent Detection of Global Predicates, 1991.
///
/// # Errors
/// An allocation was refused.
pub fn definitely<T: Threads + Wait + Sync, G: Gate + Sync>(
    rt: &T,
    alloc: Global,
    computation: &Computation<'_>,
    pred: &Pred,
    width: u64,
    workers: u64,
    gate: &G,
) -> Result<DefinitelyAnswer, AllocError>
    requires wide { 1 ≤ width }
    requires narrow { width ≤ width_limit }
    requires some_workers { 1 ≤ workers }
    requires few_workers { workers ≤ worker_limit }
    ensures { IfOk result (λ answer. IsDefinitelyAnswer computation.now.events
        (test_of computation.now (predicate_view pred.now)) width (definitely_answer_view answer)) }
{
    let (answer, _most) = definitely_counted(rt, alloc, computation, pred, width, workers, gate)?;
    Ok(answer)
}

/// The answer as `definitely` gives it, and how many levels were held at once, at most: what their holder has counted.
///
/// # Errors
/// An allocation was refused.
pub fn definitely_counted<T: Threads + Wait + Sync, G: Gate + Sync>(
    rt: &T,
    alloc: Global,
    computation: &Computation<'_>,
    pred: &Pred,
    width: u64,
    workers: u64,
    gate: &G,
) -> Result<(DefinitelyAnswer, Count), AllocError>
    requires wide { 1 ≤ width }
    requires narrow { width ≤ width_limit }
    requires some_workers { 1 ≤ workers }
    requires few_workers { workers ≤ worker_limit }
    ensures answer { IfOk result (λ found. IsDefinitelyAnswer computation.now.events
        (test_of computation.now (predicate_view pred.now)) width (definitely_answer_view found.0)) }
    ensures few { IfOk result (λ found. (s : ℕ) → IsLeastRoot s (total computation.now.events + 1)
        → found.1.most ≤ 2 * s + 2) }
    ensures some { IfOk result (λ found. 1 ≤ found.1.most) }
    ensures past_first { IfOk result (λ found. IsPastFirst computation.now.events (definitely_answer_view found.0)
        → 2 ≤ found.1.most) }
{
    let crew = Crew::new(rt, workers, gate);
    let answers = answer_one(&crew, alloc, computation, pred, width)?;
    Ok(answers.into_definitely())
}
