//! The page of a session, or its object.
ghost use Rattle.judge_explore.specs.Explored.{IsPageOfInputs, IsPageOfTraces};
ghost use Rattle.judge_explore.specs.FileViews.{files_view};
ghost use Rattle.judge_explore.specs.Forms.{form_view};
ghost use Rattle.judge_explore.specs.Known.{known_by};
ghost use Rattle.def_format.specs.Reports as reports;
ghost use Rattle.def_format.specs.Sessions as sessions;
ghost use Rattle.def_format.specs.Reports.{Refused};
ghost use Rattle.out_json.specs.JsonReports.{json_text, json_text_at};
ghost use Rattle.pd_engine.specs.Ends.{IsGiven};
ghost use Rattle.pd_gather.specs.Views.{ReadingFits, results_view, traces_view};
ghost use Rattle.def_judgement.specs.Judgements.{IsReportOfResults, IsTracesReport};
ghost use Rattle.pd_match.specs.Views.{pairs_view};
ghost use Rattle.def_model.specs.Cuts.{total};
ghost use Rattle.def_model.specs.Messages.{IsMessageList};
ghost use Rattle.out_page.specs.AnswerData.{Answered, Cyclic};
ghost use Rattle.out_page.specs.Pages.{page_text};
ghost use Rattle.out_page.specs.Views.{extras_view, sources_view};
ghost use Rattle.pd_report.specs.Views.{answer_view, named_places_view, refusal_view, report_view};
ghost use Rattle.judge_session.specs.Computations.{AreWellFormed};
ghost use Rattle.judge_session.specs.Inquiries.{inquiry_view};
ghost use Rattle.judge_session.specs.SessionReports.{IsReportOfInputs};
ghost use Rattle.judge_session.specs.Unanswered.{IsUnanswered};
ghost use Rattle.pd_spec.specs.Views.{document_view};
ghost use Rattle.read_traces.specs.SessionTraces.{AreTraces};
ghost use Rattle.read_traces.specs.Views.{computation_view};
ghost use Rattle.std.specs.Prelude.{◌≡◌, All, IfErr, IfOk, Ok, false, length, map};

use super::form::Form;
use super::known::CutPlaces;
use super::page::Page;
use super::sources::sources_of;
use super::stream_file::StreamFile;
use judge_session::{Inquiry, Unanswered, build, messages_of, read_inquiry, traces_of};
use out_json::{json_text, json_text_at};
use out_page::{Content, Extras, Outcome, Source, text};
use pd_clock::Computation;
use pd_engine::answers_of;
use pd_expand::Crew;
use pd_gather::{ByteSource, Gathered, Observer, read_streams_watched};
use pd_level::Gate;
use pd_match::Place;
use pd_report::{Answer, Refusal, Report};
use pd_spec::Spec;
use read_traces::Trace;
use std::alloc::{AllocError, Global};
use std::random::RandomSource;
use std::sync::Wait;
use std::thread::Threads;

/// The text of the page of a session's traces that shows these answers.
fn answers_text(
    alloc: Global,
    spec: &Spec,
    extras: &Extras<'_>,
    sources: &[Source<'_>],
    traces: &[Trace],
    pairs: &[(Place, Place)],
    answers: &[Answer],
) -> Result<Vec<u8>, AllocError>
    ensures { IfOk result (λ text. text.items ≡ page_text (document_view spec.now) (extras_view extras.now)
        (sources_view sources.now) (computation_view traces.now) (pairs_view pairs.now) (Answered (map answer_view
        answers.now))) }
{
    let content = Content {
        spec,
        extras,
        sources,
        traces,
        pairs,
        outcome: Outcome::Answers(answers),
    };
    text(alloc, &content)
}

/// The report of a session of this document that was judged, with these answers.
fn judged_report(spec: &Spec, built: &(Computation<'_>, u64), answers: Vec<Answer>) -> Report
    ensures { report_view result ≡ reports.Judged (length (document_view spec.now).names) (total built.now.0.events)
        built.now.1 (map answer_view answers.items) }
{
    Report::Judged {
        processes: spec.names().processes() as u64,
        events: built.0.total(),
        messages: built.1,
        answers,
    }
}

/// The page of a session's traces that make this computation, with these messages and answers.
fn answered_page(
    alloc: Global,
    spec: &Spec,
    extras: &Extras<'_>,
    sources: &[Source<'_>],
    traces: &[Trace],
    pairs: &[(Place, Place)],
    built: &(Computation<'_>, u64),
    answers: Vec<Answer>,
) -> Result<Page, AllocError>
    ensures report { IfOk result (λ page. report_view page.report
        ≡ reports.Judged (length (document_view spec.now).names) (total built.now.0.events) built.now.1
        (map answer_view answers.items)) }
    ensures text { IfOk result (λ page. page.text.items ≡ page_text (document_view spec.now) (extras_view extras.now)
        (sources_view sources.now) (computation_view traces.now) (pairs_view pairs.now)
        (Answered (map answer_view answers.items))) }
{
    let text = answers_text(alloc, spec, extras, sources, traces, pairs, &answers)?;
    let report = judged_report(spec, built, answers);
    Ok(Page { text, report })
}

/// The object of a session's traces that make this computation, with these messages and answers.
fn answered_object(
    alloc: Global,
    spec: &Spec,
    sources: &[Source<'_>],
    built: &(Computation<'_>, u64),
    answers: Vec<Answer>,
) -> Result<Page, AllocError>
    ensures report { IfOk result (λ page. report_view page.report
        ≡ reports.Judged (length (document_view spec.now).names) (total built.now.0.events) built.now.1
        (map answer_view answers.items)) }
    ensures text { IfOk result (λ page. page.text.items ≡ json_text_at (document_view spec.now).names
        (known_by (document_view spec.now).names (document_view spec.now).predicates (sources_view sources.now)
        built.now.0) (report_view page.report)) }
{
    let places = CutPlaces {
        spec,
        sources,
        computation: &built.0,
    };
    let report = judged_report(spec, built, answers);
    let text = json_text_at(alloc, spec.names(), &places, &report)?;
    Ok(Page { text, report })
}

/// The page or the object of a session's traces that make this computation, with these messages.
fn judged_page<S: RandomSource + Threads + Wait + Sync, G: Gate + Sync>(
    crew: &Crew<'_, '_, S, G>,
    alloc: Global,
    spec: &Spec,
    form: Form<'_, '_>,
    sources: &[Source<'_>],
    traces: &[Trace],
    pairs: &[(Place, Place)],
    built: &(Computation<'_>, u64),
) -> Result<Page, AllocError>
    requires formed { AreWellFormed (document_view spec.now) (traces_view traces.now) built.now.0 built.now.1 }
    requires listed { IsMessageList (computation_view traces.now) (pairs_view pairs.now) }
    ensures { IfOk result (λ page. IsPageOfTraces (document_view spec.now) (form_view form.entry)
        (sources_view sources.now) (traces_view traces.now) (IsGiven (Ok page.report)) page.text.items) }
{
    let answers = answers_of(crew, alloc, spec, &built.0)?;
    match form {
        Form::Page(extras) => answered_page(
            alloc, spec, extras, sources, traces, pairs, built, answers,
        ),
        Form::Object => answered_object(alloc, spec, sources, built, answers),
    }
}

/// The text of the page of a session's traces that shows this causal cycle.
fn cycle_text(
    alloc: Global,
    spec: &Spec,
    extras: &Extras<'_>,
    sources: &[Source<'_>],
    traces: &[Trace],
    pairs: &[(Place, Place)],
    places: &[(String, u64)],
) -> Result<Vec<u8>, AllocError>
    ensures { IfOk result (λ text. text.items ≡ page_text (document_view spec.now) (extras_view extras.now)
        (sources_view sources.now) (computation_view traces.now) (pairs_view pairs.now) (Cyclic (named_places_view
        places.now))) }
{
    let content = Content {
        spec,
        extras,
        sources,
        traces,
        pairs,
        outcome: Outcome::Cycle(places),
    };
    text(alloc, &content)
}

/// The page of a session's traces that are refused for this causal cycle.
fn cycle_page(
    alloc: Global,
    spec: &Spec,
    extras: &Extras<'_>,
    sources: &[Source<'_>],
    traces: &[Trace],
    pairs: &[(Place, Place)],
    places: Vec<(String, u64)>,
) -> Result<Page, AllocError>
    ensures report { IfOk result (λ page. report_view page.report
        ≡ Refused (reports.Cycle (named_places_view places.items))) }
    ensures text { IfOk result (λ page. page.text.items ≡ page_text (document_view spec.now) (extras_view extras.now)
        (sources_view sources.now) (computation_view traces.now) (pairs_view pairs.now)
        (Cyclic (named_places_view places.items))) }
{
    let text = cycle_text(alloc, spec, extras, sources, traces, pairs, &places)?;
    Ok(Page {
        text,
        report: Report::Refused(Refusal::Cycle(places)),
    })
}

/// The object of a session that is refused for this causal cycle.
fn cycle_object(alloc: Global, spec: &Spec, places: Vec<(String, u64)>) -> Result<Page, AllocError>
    ensures report { IfOk result (λ page. report_view page.report
        ≡ Refused (reports.Cycle (named_places_view places.items))) }
    ensures text { IfOk result (λ page. page.text.items ≡ json_text (document_view spec.now).names
        (report_view page.report)) }
{
    let report = Report::Refused(Refusal::Cycle(places));
    let text = json_text(alloc, spec.names(), &report)?;
    Ok(Page { text, report })
}

/// The page or the object of a session's traces that are refused for this causal cycle.
fn cyclic_page(
    alloc: Global,
    spec: &Spec,
    form: Form<'_, '_>,
    sources: &[Source<'_>],
    traces: &[Trace],
    pairs: &[(Place, Place)],
    places: Vec<(String, u64)>,
) -> Result<Page, AllocError>
    requires listed { IsMessageList (computation_view traces.now) (pairs_view pairs.now) }
    requires right { IsTracesReport (document_view spec.now) (traces_view traces.now)
        (Refused (reports.Cycle (named_places_view places.items))) }
    ensures { IfOk result (λ page. IsPageOfTraces (document_view spec.now) (form_view form.entry)
        (sources_view sources.now) (traces_view traces.now) (IsGiven (Ok page.report)) page.text.items) }
{
    match form {
        Form::Page(extras) => cycle_page(alloc, spec, extras, sources, traces, pairs, places),
        Form::Object => cycle_object(alloc, spec, places),
    }
}

/// The page or the object of a session's traces that are refused for a causal cycle, or another refusal.
fn refused_page(
    alloc: Global,
    spec: &Spec,
    form: Form<'_, '_>,
    sources: &[Source<'_>],
    traces: &[Trace],
    pairs: &[(Place, Place)],
    refusal: Refusal,
) -> Result<Page, Unanswered>
    requires listed { IsMessageList (computation_view traces.now) (pairs_view pairs.now) }
    requires right { IsTracesReport (document_view spec.now) (traces_view traces.now)
        (Refused (refusal_view refusal)) }
    ensures page { IfOk result (λ page. IsPageOfTraces (document_view spec.now) (form_view form.entry)
        (sources_view sources.now) (traces_view traces.now) (IsGiven (Ok page.report)) page.text.items) }
    ensures refused { IfErr result (IsUnanswered (IsTracesReport (document_view spec.now)
        (traces_view traces.now))) }
{
    match refusal {
        Refusal::Cycle(places) => {
            let page = cyclic_page(alloc, spec, form, sources, traces, pairs, places)?;
            Ok(page)
        }
        other => Err(Unanswered::Refused(other)),
    }
}

/// The page or the object of a session's traces, or the refusal of the messages. The page of traces that are refused
/// for a causal cycle shows the cycle.
fn page_of_traces<S: RandomSource + Threads + Wait + Sync, G: Gate + Sync>(
    crew: &Crew<'_, '_, S, G>,
    alloc: Global,
    spec: &Spec,
    form: Form<'_, '_>,
    sources: &[Source<'_>],
    traces: &[Trace],
) -> Result<Page, Unanswered>
    requires { AreTraces (document_view spec.now).names traces.now }
    ensures page { IfOk result (λ page. IsPageOfTraces (document_view spec.now) (form_view form.entry)
        (sources_view sources.now) (traces_view traces.now) (IsGiven (Ok page.report)) page.text.items) }
    ensures refused { IfErr result (IsUnanswered (IsTracesReport (document_view spec.now)
        (traces_view traces.now))) }
{
    let matched = messages_of(crew.runtime(), alloc, spec, traces)?;
    let pairs = matched.pairs(alloc)?;
    match build(alloc, spec, traces, matched) {
        Ok(built) => {
            let page = judged_page(crew, alloc, spec, form, sources, traces, &pairs, &built)?;
            Ok(page)
        }
        Err(unanswered) => match unanswered {
            Unanswered::Refused(refusal) => refused_page(
                alloc, spec, form, sources, traces, &pairs, refusal,
            ),
            Unanswered::Memory => Err(Unanswered::Memory),
        },
    }
}

/// The traces of a session's streams, which fit its document as the readings do, or the refusal of the streams.
fn fitting_traces(alloc: Global, spec: &Spec, gathered: Gathered) -> Result<Vec<Trace>, Unanswered>
    requires { All (ReadingFits (document_view spec.now).names) gathered.readings.items }
    ensures joined { IfOk result (λ traces.
        sessions.session (document_view spec.now).names gathered.streams (results_view gathered.readings.items)
        ≡ Ok (traces_view traces.items)) }
    ensures fit { IfOk result (λ traces. AreTraces (document_view spec.now).names traces.items) }
    ensures refused { IfErr result (IsUnanswered (IsReportOfResults (document_view spec.now) gathered.streams
        (results_view gathered.readings.items))) }
{
    match traces_of(alloc, spec, gathered) {
        Ok(traces) => Ok(traces),
        Err(unanswered) => Err(unanswered),
    }
}

/// The page or the object of the session of an inquiry's document and of what the streams' readers give, with where
/// their events were recorded by these files, or why it comes to none. The observer, if there is one, watches while the
/// streams are read.
pub(crate) fn page_of_session<
    S: RandomSource + Threads + Wait + Sync,
    R: ByteSource + Send + Drop,
    G: Gate + Sync,
    O: Observer + Sync,
>(
    crew: &Crew<'_, '_, S, G>,
    alloc: Global,
    inquiry: Inquiry<'_, '_, '_>,
    form: Form<'_, '_>,
    files: &[StreamFile<'_>],
    readers: Vec<R>,
    observer: Option<&O>,
) -> Result<Page, Unanswered>
    requires { All (λ r. R.has_ended r ≡ false) readers.items }
    ensures page { IfOk result (λ page. IsPageOfInputs (inquiry_view inquiry.entry) (form_view form.entry)
        (files_view files.now) (map R.left readers.items) (IsGiven (Ok page.report)) page.text.items) }
    ensures refused { IfErr result (IsUnanswered
        (IsReportOfInputs (inquiry_view inquiry.entry) (map R.left readers.items))) }
{
    let spec = read_inquiry(alloc, inquiry)?;
    let gathered = read_streams_watched(crew.runtime(), alloc, &spec, readers, observer)?;
    let traces = fitting_traces(alloc, &spec, gathered)?;
    let sources = sources_of(alloc, &spec, files, &traces)?;
    page_of_traces(crew, alloc, &spec, form, &sources, &traces)
}
