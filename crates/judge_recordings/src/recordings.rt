//! The run of a session's streams.
ghost use Rattle.def_format.specs.Readings as readings;
ghost use Rattle.def_format.specs.Sessions.{session_within};
ghost use Rattle.def_judgement.specs.Judgements.{IsReportOfSession, IsTracesReport};
ghost use Rattle.def_recordings.specs.Recordings.{recorded_stream_limit};
ghost use Rattle.judge_recordings.specs.Runs.{IsRunOf};
ghost use Rattle.judge_session.specs.Unanswered.{IsUnanswered};
ghost use Rattle.pd_gather.specs.Views.{ReadingFitsWithin, results_view, traces_view};
ghost use Rattle.pd_spec.specs.Views.{document_view};
ghost use Rattle.read_traces.specs.SessionTraces.{AreTracesWithin};
ghost use Rattle.std.specs.Prelude.{◌≡◌, ℕ, All, IfErr, IfOk, List, Ok};

use super::events::event_total;
use def_recordings::RECORDED_STREAM_LIMIT;
use judge_orders::{KeptRun, order_of_traces};
use judge_session::{Unanswered, cycle_refusal, messages_of, traces_within};
use pd_clock::BuildFault;
use pd_gather::Gathered;
use pd_spec::Spec;
use read_traces::Trace;
use std::alloc::Global;
use std::random::RandomSource;

/// A recorded run.
#[derive(Drop)]
pub struct RecordedRun {
    /// The order of the run, and which events are kept; none if a process keeps more than `EVENT_LIMIT` events.
    pub kept: Option<KeptRun>,
    /// How many events all processes have together.
    pub events: u64,
    /// How many messages there are: how many sends are received, by one process or by several.
    pub messages: u64,
}

/// The run of these traces, one for each process, or the refusal of the messages or of a causal cycle.
///
/// # Errors
/// `Refused` if the messages or a causal cycle are refused, and `Memory`.
fn run_of<S: RandomSource>(
    rt: &S,
    alloc: Global,
    spec: &Spec,
    traces: &[Trace],
) -> Result<RecordedRun, Unanswered>
    requires { (limit : ℕ) × AreTracesWithin limit (document_view spec.now).names traces.now }
    ensures run { IfOk result (IsRunOf (document_view spec.now) (traces_view traces.now)) }
    ensures refused { IfErr result (IsUnanswered (IsTracesReport (document_view spec.now)
        (traces_view traces.now))) }
{
    let Some(events) = event_total(traces) else {
        return Err(Unanswered::Memory);
    };
    let matched = messages_of(rt, alloc, spec, traces)?;
    match order_of_traces(alloc, spec, traces, &matched) {
        Ok(kept) => Ok(RecordedRun {
            kept,
            events,
            messages: matched.messages(),
        }),
        Err(BuildFault::Cycle(cycle)) => {
            let refusal = cycle_refusal(alloc, spec, traces, &cycle)?;
            Err(Unanswered::Refused(refusal))
        }
        Err(BuildFault::Memory) => Err(Unanswered::Memory),
    }
}

/// The run that its streams gave, of any number of events, or the first refusal, in the words of a report.
///
/// It takes time for the events and their settings, times the processes. The run has memory for the kept events alone.
///
/// # Errors
/// `Refused` if the session is refused, and `Memory`, also if the number of events doesn't fit.
pub fn recorded_run<S: RandomSource>(
    rt: &S,
    alloc: Global,
    spec: &Spec,
    gathered: Gathered,
) -> Result<RecordedRun, Unanswered>
    requires fits { (limit : ℕ) × All (ReadingFitsWithin limit (document_view spec.now).names)
        gathered.readings.items }
    ensures run { IfOk result (λ run. (traces : List readings.Trace)
        × (session_within recorded_stream_limit (document_view spec.now).names gathered.streams
        (results_view gathered.readings.items) ≡ Ok traces)
        × IsRunOf (document_view spec.now) traces run) }
    ensures refused { IfErr result (IsUnanswered (IsReportOfSession (document_view spec.now)
        (session_within recorded_stream_limit (document_view spec.now).names gathered.streams
        (results_view gathered.readings.items)))) }
{
    let traces = traces_within(alloc, RECORDED_STREAM_LIMIT, spec, gathered)?;
    run_of(rt, alloc, spec, &traces)
}
