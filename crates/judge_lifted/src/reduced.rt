//! The answers of the reduction.
ghost use Rattle.def_judgement.specs.Judgements.{IsAnswered};
ghost use Rattle.pd_clock.specs.Computations.{recorded_view};
ghost use Rattle.pd_report.specs.Views.{answer_view};
ghost use Rattle.pd_spec.specs.Views.{document_view};
ghost use Rattle.read_traces.specs.SessionTraces.{AreTraces};
ghost use Rattle.std.specs.List.{AllZip};
ghost use Rattle.std.specs.Prelude.{◌≡◌, ◌<◌, IfOk, IfSome, length, map};

use judge_reduced::traces_computation;
use pd_clock::Computation;
use pd_engine::{Crew, Gate, answers_of};
use pd_report::Answer;
use pd_spec::Spec;
use read_traces::Trace;
use std::alloc::{AllocError, Global};
use std::random::RandomSource;
use std::sync::Wait;
use std::thread::Threads;

/// The answers of the traces of a reduction, if they have fewer events than the run.
///
/// # Errors
/// An allocation was refused.
pub(crate) fn reduced_answers<S: RandomSource + Threads + Wait + Sync, G: Gate + Sync>(
    crew: &Crew<'_, '_, S, G>,
    alloc: Global,
    spec: &Spec,
    computation: &Computation<'_>,
    traces: &[Trace],
) -> Result<Option<Vec<Answer>>, AllocError>
    requires { AreTraces (document_view spec.now).names traces.now }
    ensures { IfOk result (λ found. IfSome found (λ answers. AllZip
        (IsAnswered (document_view spec.now) (recorded_view (document_view spec.now).initial traces.now))
        (document_view spec.now).predicates (map answer_view answers.items))) }
{
    let Some(reduced) = traces_computation(crew.runtime(), alloc, spec, traces)? else {
        return Ok(None);
    };
    if reduced.total() >= computation.total() {
        return Ok(None);
    }
    Ok(Some(answers_of(crew, alloc, spec, &reduced)?))
}
