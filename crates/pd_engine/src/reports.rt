//! The report of a session.
ghost use Rattle.judge_session.specs.Inquiries.{inquiry_view};
ghost use Rattle.judge_session.specs.SessionReports.{IsReportOfInputs};
ghost use Rattle.judge_session.specs.Unanswered.{given_report};
ghost use Rattle.def_format.specs.Limits.{worker_limit};
ghost use Rattle.def_format.specs.Readings as readings;
ghost use Rattle.def_format.specs.Sessions.{session};
ghost use Rattle.pd_gather.specs.Views.{ReadingFits, results_view};
ghost use Rattle.def_judgement.specs.Headline.{IsNarrow, ReportAgrees, TellsTruth, each_decided, each_predicate};
ghost use Rattle.def_judgement.specs.Judgements.{IsReportOfResults, events_of_traces};
ghost use Rattle.def_model.specs.Order.{IsWellFormed};
ghost use Rattle.pd_engine.specs.SessionReports.{IsTrueReportOfInputs};
ghost use Rattle.pd_report.specs.Views.{report_view};
ghost use Rattle.pd_spec.specs.Views.{document_view};
ghost use Rattle.std.specs.Prelude.{◌≡◌, ◌≤◌, All, IfOk, IfSome, IsOkUnless, List, Ok, false, map, true};

use super::answers::answers_of;
use judge_session::{
    EngineFault, Inquiry, Unanswered, computation_of, read_inquiry, settled, traces_of,
};
use pd_expand::Crew;
use pd_gather::{ByteSource, Gathered, NoObserver, Observer, read_streams_watched};
use pd_level::Gate;
use pd_report::Report;
use pd_spec::Spec;
use std::alloc::Global;
use std::random::RandomSource;
use std::sync::Wait;
use std::thread::Threads;

/// The report of what the streams of a session gave, with an answer for each predicate, or why there are none.
fn answered<S: RandomSource + Threads + Wait + Sync, G: Gate + Sync>(
    crew: &Crew<'_, '_, S, G>,
    alloc: Global,
    spec: &Spec,
    gathered: Gathered,
) -> Result<Report, Unanswered>
    requires { All (ReadingFits (document_view spec.now).names) gathered.readings.items }
    ensures { IfSome (given_report result) (IsReportOfResults (document_view spec.now) gathered.streams
        (results_view gathered.readings.items)) }
{
    let traces = traces_of(alloc, spec, gathered)?;
    let (computation, messages) = computation_of(crew.runtime(), alloc, spec, &traces)?;
    let answers = answers_of(crew, alloc, spec, &computation)?;
    Ok(Report::Judged {
        processes: spec.names().processes() as u64,
        events: computation.total(),
        messages,
        answers,
    })
}

/// The report of what the streams of a session gave: the first refusal, or an answer for each predicate.
///
/// # Errors
/// `Memory`.
pub(crate) fn report_by<S: RandomSource + Threads + Wait + Sync, G: Gate + Sync>(
    crew: &Crew<'_, '_, S, G>,
    alloc: Global,
    spec: &Spec,
    gathered: Gathered,
) -> Result<Report, EngineFault>
    requires fits { All (ReadingFits (document_view spec.now).names) gathered.readings.items }
    ensures report { IfOk result (λ report. IsReportOfResults (document_view spec.now) gathered.streams
        (results_view gathered.readings.items) (report_view report)) }
    ensures err { IsOkUnless result EngineFault.Memory }
{
    settled(answered(crew, alloc, spec, gathered))
}

/// The report of what the streams of a session gave: the first refusal, or an answer for each predicate. The workers,
/// from 1 to 16, and the gate change how long it takes, and nothing of the report.
///
/// # Errors
/// `Memory`.
pub fn report_of<S: RandomSource + Threads + Wait + Sync, G: Gate + Sync>(
    rt: &S,
    alloc: Global,
    spec: &Spec,
    gathered: Gathered,
    workers: u64,
    gate: &G,
) -> Result<Report, EngineFault>
    requires fits { All (ReadingFits (document_view spec.now).names) gathered.readings.items }
    requires some_workers { 1 ≤ workers }
    requires few_workers { workers ≤ worker_limit }
    // The report is the one that the definitions give.
    ensures report { IfOk result (λ report. IsReportOfResults (document_view spec.now) gathered.streams
        (results_view gathered.readings.items) (report_view report)) }
    // If the streams make a well-formed computation with no level over the width, it tells the truth of each predicate.
    ensures headline { IfOk result (λ report. (traces : List readings.Trace)
        → session (document_view spec.now).names gathered.streams (results_view gathered.readings.items) ≡ Ok traces
        → IsWellFormed (document_view spec.now).version (events_of_traces traces)
        → IsNarrow (events_of_traces traces) (document_view spec.now).width
        → TellsTruth each_predicate (document_view spec.now) traces (report_view report)) }
    // However wide it is, what it says is true; and if that is asked for, it tells the truth of each predicate that is
    // decided whatever the width, for Possibly of each that sums decide, and for Definitely of each with few dead ends.
    ensures headline_beyond_width { IfOk result (λ report. (traces : List readings.Trace)
        → session (document_view spec.now).names gathered.streams (results_view gathered.readings.items) ≡ Ok traces
        → IsWellFormed (document_view spec.now).version (events_of_traces traces)
        → (document_view spec.now).beyond_width ≡ true
        → TellsTruth (each_decided (document_view spec.now).width) (document_view spec.now) traces
        (report_view report)) }
    // The answers for each predicate agree, also with a level over the width.
    ensures agrees { IfOk result (λ report. ReportAgrees (report_view report)) }
    ensures err { IsOkUnless result EngineFault.Memory }
{
    def_judgement::headline();
    def_judgement::headline_beyond_width();
    def_judgement::reports_agree();
    report_by(&Crew::new(rt, workers, gate), alloc, spec, gathered)
}

/// The report of a session of an inquiry's document and of what the streams' readers give, or why it comes to no
/// answers. The observer, if there is one, watches while the streams are read.
fn session_report<
    S: RandomSource + Threads + Wait + Sync,
    R: ByteSource + Send + Drop,
    G: Gate + Sync,
    O: Observer + Sync,
>(
    crew: &Crew<'_, '_, S, G>,
    alloc: Global,
    inquiry: Inquiry<'_, '_, '_>,
    readers: Vec<R>,
    observer: Option<&O>,
) -> Result<Report, Unanswered>
    requires { All (λ r. R.has_ended r ≡ false) readers.items }
    ensures { IfSome (given_report result)
        (IsReportOfInputs (inquiry_view inquiry.entry) (map R.left readers.items)) }
{
    let spec = read_inquiry(alloc, inquiry)?;
    let gathered = read_streams_watched(crew.runtime(), alloc, &spec, readers, observer)?;
    answered(crew, alloc, &spec, gathered)
}

/// The report of a session of an inquiry's document and of what the streams' readers give: the first refusal, or
/// an answer for each predicate. A read that fails is a fault of its stream. The observer, if there is one, watches
/// while the streams are read.
///
/// # Errors
/// `Memory`.
pub(crate) fn streams_report<
    S: RandomSource + Threads + Wait + Sync,
    R: ByteSource + Send + Drop,
    G: Gate + Sync,
    O: Observer + Sync,
>(
    crew: &Crew<'_, '_, S, G>,
    alloc: Global,
    inquiry: Inquiry<'_, '_, '_>,
    readers: Vec<R>,
    observer: Option<&O>,
) -> Result<Report, EngineFault>
    requires { All (λ r. R.has_ended r ≡ false) readers.items }
    ensures given { IfOk result (λ report.
        IsReportOfInputs (inquiry_view inquiry.entry) (map R.left readers.items)
        (report_view report)) }
    ensures err { IsOkUnless result EngineFault.Memory }
{
    settled(session_report(crew, alloc, inquiry, readers, observer))
}

/// The report of a session of an inquiry's document and of what the streams' readers give, as `judge_inquiry` writes
/// it: the first refusal, or an answer for each predicate. The streams are read each on its own thread; none is read if
/// the document is refused, or if they are too many. A read that fails is a fault of its stream. The workers, from 1 to
/// 16, and the gate change how long it takes, and nothing of the report.
///
/// # Errors
/// `Memory`.
pub fn report_inquiry<
    S: RandomSource + Threads + Wait + Sync,
    R: ByteSource + Send + Drop,
    G: Gate + Sync,
>(
    rt: &S,
    alloc: Global,
    inquiry: Inquiry<'_, '_, '_>,
    readers: Vec<R>,
    workers: u64,
    gate: &G,
) -> Result<Report, EngineFault>
    requires open { All (λ r. R.has_ended r ≡ false) readers.items }
    requires some_workers { 1 ≤ workers }
    requires few_workers { workers ≤ worker_limit }
    // The report is the one that the definitions give, and it is true.
    ensures report { IfOk result (λ report. IsTrueReportOfInputs (inquiry_view inquiry.entry)
        (map R.left readers.items) (report_view report)) }
    ensures err { IsOkUnless result EngineFault.Memory }
{
    def_judgement::judgement_is_true();
    let crew = Crew::new(rt, workers, gate);
    streams_report(&crew, alloc, inquiry, readers, None::<&NoObserver>)
}

/// The report of a session as `report_inquiry` gives it, by this crew. The observer watches while the streams are read.
///
/// # Errors
/// `Memory`.
pub fn report_inquiry_watched<
    S: RandomSource + Threads + Wait + Sync,
    R: ByteSource + Send + Drop,
    G: Gate + Sync,
    O: Observer + Sync,
>(
    crew: &Crew<'_, '_, S, G>,
    alloc: Global,
    inquiry: Inquiry<'_, '_, '_>,
    readers: Vec<R>,
    observer: &O,
) -> Result<Report, EngineFault>
    requires { All (λ r. R.has_ended r ≡ false) readers.items }
    ensures report { IfOk result (λ report. IsTrueReportOfInputs (inquiry_view inquiry.entry)
        (map R.left readers.items) (report_view report)) }
    ensures err { IsOkUnless result EngineFault.Memory }
{
    def_judgement::judgement_is_true();
    streams_report(crew, alloc, inquiry, readers, Some(observer))
}
