//! What the answers of the reduction say of the run.
ghost use Rattle.def_format.specs.Documents.{NamedPredicate};
ghost use Rattle.judge_lifted.specs.Lifted.{IsDecided, IsLifted, IsReached};
ghost use Rattle.judge_lifted.specs.Truths.{IsDefinitelyOf, IsPossiblyOf, IsTruthOf};
ghost use Rattle.pd_pred.specs.Views.{predicate_view};
ghost use Rattle.pd_report.specs.Views.{answer_view, definitely_view, possibly_view};
ghost use Rattle.pd_spec.specs.Named.{named_view};
ghost use Rattle.std.specs.List.{AllZip};
ghost use Rattle.std.specs.Prelude.{IfOk, map};

use super::answer::{LiftedAnswer, Reached};
use super::cuts::lifted_counts;
use pd_clock::{Computation, Cut};
use pd_evidence::check_cut;
use pd_pred::Pred;
use pd_report::{Answer, Definitely, Possibly};
use pd_spec::NamedPred;
use read_traces::Trace;
use std::alloc::{AllocError, Global};

/// Whether the predicate holds at the cut of the run that a cut of the reduction stands for, at which it does. It is
/// looked at there; that it doesn't hold doesn't come.
///
/// # Errors
/// An allocation was refused.
fn reached_at(
    alloc: Global,
    computation: &Computation<'_>,
    pred: &Pred,
    numbers: &[Vec<u64>],
    traces: &[Trace],
    counts: &[u64],
) -> Result<Reached, AllocError>
    ensures { IfOk result (IsReached computation.now (predicate_view pred.now)) }
{
    let lifted = lifted_counts(alloc, computation, numbers, traces, counts)?;
    let cut = Cut::new(alloc, &lifted)?;
    if check_cut(computation, pred, &cut) {
        return Ok(Reached::At(lifted));
    }
    Ok(Reached::Unknown)
}

/// Whether the predicate holds at some cut of the run, by the answer to Possibly of its reduction.
///
/// # Errors
/// An allocation was refused.
fn reached(
    alloc: Global,
    computation: &Computation<'_>,
    pred: &Pred,
    numbers: &[Vec<u64>],
    traces: &[Trace],
    possibly: &Possibly,
) -> Result<Reached, AllocError>
    requires { IsPossiblyOf computation.now (predicate_view pred.now) (possibly_view possibly.now) }
    ensures { IfOk result (IsReached computation.now (predicate_view pred.now)) }
{
    match possibly {
        Possibly::Yes(counts) => reached_at(alloc, computation, pred, numbers, traces, counts),
        Possibly::No => Ok(Reached::Never),
        Possibly::Unknown(_) => Ok(Reached::Unknown),
    }
}

/// Whether the predicate definitely holds in the run, by the answer of its reduction, if that is known.
fn decided(_computation: &Computation<'_>, _pred: &Pred, definitely: &Definitely) -> Option<bool>
    requires { IsDefinitelyOf _computation.now (predicate_view _pred.now) (definitely_view definitely.now) }
    ensures { IsDecided _computation.now (predicate_view _pred.now) result }
{
    match definitely {
        Definitely::Yes(_) => Some(true),
        Definitely::No(_) => Some(false),
        Definitely::Unknown(_) => None,
    }
}

/// What the reduction of the run says of a predicate by its answer.
///
/// # Errors
/// An allocation was refused.
fn lifted_answer(
    alloc: Global,
    computation: &Computation<'_>,
    asked: &NamedPred,
    numbers: &[Vec<u64>],
    traces: &[Trace],
    answer: &Answer,
) -> Result<LiftedAnswer, AllocError>
    requires { IsTruthOf computation.now (named_view asked.now) (answer_view answer.now) }
    ensures { IfOk result (IsLifted computation.now (named_view asked.now)) }
{
    let possibly = reached(
        alloc,
        computation,
        &asked.pred,
        numbers,
        traces,
        &answer.possibly,
    )?;
    let definitely = decided(computation, &asked.pred, &answer.definitely);
    Ok(LiftedAnswer {
        possibly,
        definitely,
    })
}

/// What the reduction of the run says of these predicates by its answers, in their order.
///
/// # Errors
/// An allocation was refused.
pub(crate) fn all_lifted(
    alloc: Global,
    computation: &Computation<'_>,
    predicates: &[NamedPred],
    numbers: &[Vec<u64>],
    traces: &[Trace],
    answers: &[Answer],
) -> Result<Vec<LiftedAnswer>, AllocError>
    requires { AllZip (IsTruthOf computation.now) (map named_view predicates.now) (map answer_view answers.now) }
    ensures { IfOk result (λ lifted. AllZip (IsLifted computation.now) (map named_view predicates.now) lifted.items) }
{
    let mut lifted = Vec::with_capacity(alloc, predicates.len())?;
    for i in 0..predicates.len() {
        lifted.push(lifted_answer(
            alloc,
            computation,
            &predicates[i],
            numbers,
            traces,
            &answers[i],
        )?)?;
    }
    Ok(lifted)
}
