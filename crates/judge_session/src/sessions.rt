//! The traces of a session.
ghost use Rattle.judge_session.specs.Unanswered.{IsUnanswered, NamesNoCycle};
ghost use Rattle.read_traces.specs.SessionTraces.{AreTracesWithin};
ghost use Rattle.def_format.specs.Sessions as sessions;
ghost use Rattle.pd_gather.specs.Views.{ReadingFitsWithin, results_view, traces_view};
ghost use Rattle.def_judgement.specs.Judgements.{IsReportOfResults, IsReportOfSession};
ghost use Rattle.pd_spec.specs.Views.{document_view};
ghost use Rattle.std.specs.Prelude.{◌≡◌, All, IfErr, IfOk, Ok, ℕ};

use super::refusal::of_streams;
use super::unanswered::Unanswered;
use def_format::STREAM_COUNT_LIMIT;
use pd_gather::{Gathered, session_within};
use pd_spec::Spec;
use read_traces::Trace;
use std::alloc::Global;

/// The traces of a session's streams, one for each process, in their order, or the refusal of the streams. They may
/// have any number of events.
///
/// # Errors
/// `Refused` if the streams are refused, and `Memory`.
pub fn traces_of(alloc: Global, spec: &Spec, gathered: Gathered) -> Result<Vec<Trace>, Unanswered>
    ensures joined { IfOk result (λ traces.
        sessions.session (document_view spec.now).names gathered.streams (results_view gathered.readings.items)
        ≡ Ok (traces_view traces.items)) }
    ensures fit { IfOk result (λ traces. (limit : ℕ)
        → All (ReadingFitsWithin limit (document_view spec.now).names) gathered.readings.items
        → AreTracesWithin limit (document_view spec.now).names traces.items) }
    ensures refused { IfErr result (IsUnanswered (IsReportOfResults (document_view spec.now) gathered.streams
        (results_view gathered.readings.items))) }
    ensures no_cycle { IfErr result (IsUnanswered NamesNoCycle) }
{
    traces_within(alloc, STREAM_COUNT_LIMIT as u64, spec, gathered)
}

/// The same, if there may be this many streams.
///
/// # Errors
/// The same.
pub fn traces_within(
    alloc: Global,
    most: u64,
    spec: &Spec,
    gathered: Gathered,
) -> Result<Vec<Trace>, Unanswered>
    ensures joined { IfOk result (λ traces. sessions.session_within most (document_view spec.now).names
        gathered.streams (results_view gathered.readings.items) ≡ Ok (traces_view traces.items)) }
    ensures fit { IfOk result (λ traces. (limit : ℕ)
        → All (ReadingFitsWithin limit (document_view spec.now).names) gathered.readings.items
        → AreTracesWithin limit (document_view spec.now).names traces.items) }
    ensures refused { IfErr result (IsUnanswered (IsReportOfSession (document_view spec.now)
        (sessions.session_within most (document_view spec.now).names gathered.streams
        (results_view gathered.readings.items)))) }
    ensures no_cycle { IfErr result (IsUnanswered NamesNoCycle) }
{
    match session_within(alloc, most, spec, gathered) {
        Ok(traces) => Ok(traces),
        Err(fault) => Err(Unanswered::Refused(of_streams(alloc, spec.names(), fault)?)),
    }
}
