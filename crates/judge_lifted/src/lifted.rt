//! What the reduction of a run says of each predicate.
ghost use Rattle.judge_lifted.specs.Lifted.{IsLifted};
ghost use Rattle.pd_spec.specs.Views.{document_view};
ghost use Rattle.std.specs.List.{AllZip};
ghost use Rattle.std.specs.Prelude.{◌≡◌, IfOk, IfSome, length};

use super::answer::LiftedAnswer;
use super::reduced::reduced_answers;
use super::truths::all_lifted;
use judge_orders::{all_kept_events, named_vars};
use judge_reduced::reduced_run;
use pd_clock::Computation;
use pd_engine::{Crew, Gate};
use pd_spec::Spec;
use std::alloc::{AllocError, Global};
use std::random::RandomSource;
use std::sync::Wait;
use std::thread::Threads;

/// The numbers of the run's kept events, for each process.
///
/// # Errors
/// An allocation was refused.
fn kept_numbers(
    alloc: Global,
    spec: &Spec,
    computation: &Computation<'_>,
) -> Result<Vec<Vec<u64>>, AllocError> {
    let named = named_vars(alloc, computation.processes(), spec.predicates())?;
    all_kept_events(alloc, computation, &named)
}

/// What the reduction of a run says of each predicate of the document, in their order: whether it holds at some cut of
/// the run, and whether it definitely holds, as far as a judgement of the reduction decides that under the document's
/// width, and beyond it, if the document asks for that. It is `None` if the reduction can't be made or has no fewer
/// events than the run.
///
/// It takes about the time of a judgement of the reduction, and the memory of the reduction and its judgement, which is
/// given back.
///
/// # Errors
/// An allocation was refused.
pub fn lifted_answers<S: RandomSource + Threads + Wait + Sync, G: Gate + Sync>(
    crew: &Crew<'_, '_, S, G>,
    alloc: Global,
    spec: &Spec,
    computation: &Computation<'_>,
) -> Result<Option<Vec<LiftedAnswer>>, AllocError>
    requires names { length computation.now.events ≡ length (document_view spec.now).names }
    requires initial { computation.now.initial ≡ (document_view spec.now).initial }
    ensures { IfOk result (λ found. IfSome found (λ lifted. AllZip (IsLifted computation.now)
        (document_view spec.now).predicates lifted.items)) }
{
    computation.limits();
    judge_reduced::answers();
    let Some(traces) = reduced_run(alloc, spec, computation)? else {
        return Ok(None);
    };
    let Some(answers) = reduced_answers(crew, alloc, spec, computation, &traces)? else {
        return Ok(None);
    };
    let numbers = kept_numbers(alloc, spec, computation)?;
    let lifted = all_lifted(
        alloc,
        computation,
        spec.predicates(),
        &numbers,
        &traces,
        &answers,
    )?;
    Ok(Some(lifted))
}
