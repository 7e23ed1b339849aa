//! The answers of a run by the judgement of its reduction.
ghost use Rattle.judge_shared.specs.Sharing.{AreTruths, answers_view};
ghost use Rattle.pd_spec.specs.Views.{document_view};
ghost use Rattle.std.specs.Prelude.{◌≡◌, IfOk, IfSome, length};

use super::bare::known_answers;
use judge_reduced::{reduced_run, traces_computation};
use pd_clock::Computation;
use pd_engine::{Gate, answers_of};
use pd_expand::Crew;
use pd_report::Answer;
use pd_spec::Spec;
use std::alloc::{AllocError, Global};
use std::random::RandomSource;
use std::sync::Wait;
use std::thread::Threads;

/// The answers of a computation without their evidence, if none is unknown.
///
/// # Errors
/// An allocation was refused.
fn known_truths<S: Threads + Wait + Sync, G: Gate + Sync>(
    crew: &Crew<'_, '_, S, G>,
    alloc: Global,
    spec: &Spec,
    computation: &Computation<'_>,
) -> Result<Option<Vec<Answer>>, AllocError>
    requires names { length computation.now.events ≡ length (document_view spec.now).names }
    ensures { IfOk result (λ known. IfSome known (λ found. AreTruths (document_view spec.now) computation.now
        (answers_view found.items))) }
{
    computation.limits();
    let answers = answers_of(crew, alloc, spec, computation)?;
    known_answers(alloc, &answers)
}

/// The answers of a run without evidence, by the judgement of its reduction, if that leaves no answer unknown. It is
/// judged only if it has at least as many events as `least`, and fewer than `below`.
///
/// It takes about the time of one judgement more at most, and the memory of the reduction and its judgement, which is
/// given back.
///
/// # Errors
/// An allocation was refused.
pub(crate) fn reduced_answers<S: RandomSource + Threads + Wait + Sync, G: Gate + Sync>(
    crew: &Crew<'_, '_, S, G>,
    alloc: Global,
    spec: &Spec,
    computation: &Computation<'_>,
    least: u64,
    below: u64,
) -> Result<Option<Vec<Answer>>, AllocError>
    requires names { length computation.now.events ≡ length (document_view spec.now).names }
    ensures { IfOk result (λ known. IfSome known (λ found. AreTruths (document_view spec.now) computation.now
        (answers_view found.items))) }
{
    computation.limits();
    judge_reduced::answers();
    let Some(traces) = reduced_run(alloc, spec, computation)? else {
        return Ok(None);
    };
    let Some(reduced) = traces_computation(crew.runtime(), alloc, spec, &traces)? else {
        return Ok(None);
    };
    if reduced.total() < least || reduced.total() >= below {
        return Ok(None);
    }
    known_truths(crew, alloc, spec, &reduced)
}
