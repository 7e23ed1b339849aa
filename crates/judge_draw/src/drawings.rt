//! Draws a report's evidence.
ghost use Rattle.judge_draw.specs.Drawings.{Draws, DrawsOf, DrawsTraces, IsTextWithNotes, NeedsNoPicture, ShowsEnd, WritesPicture};
ghost use Rattle.pd_match.specs.Views.{pairs_view};
ghost use Rattle.def_model.specs.Messages.{IsMessageList};
ghost use Rattle.judge_session.specs.Computations.{AreWellFormed};
ghost use Rattle.judge_session.specs.Ends.{call_end};
ghost use Rattle.judge_session.specs.Inquiries.{inquiry_view};
ghost use Rattle.judge_session.specs.SessionReports.{IsReportOfInputs};
ghost use Rattle.judge_session.specs.Unanswered.{IsUnanswered};
ghost use Rattle.read_traces.specs.SessionTraces.{AreTraces};
ghost use Rattle.read_traces.specs.Views.{computation_view};
ghost use Rattle.pd_gather.specs.Views.{traces_view};
ghost use Rattle.def_judgement.specs.Judgements.{IsTracesReport};
ghost use Rattle.def_judgement.specs.Writes.{Writes};
ghost use Rattle.pd_report.specs.Views.{report_view};
ghost use Rattle.pd_spec.specs.Views.{document_view};
ghost use Rattle.out_svg.specs.Svg.{drawing_text};
ghost use Rattle.out_picture.specs.Scopes.{scope_view};
ghost use Rattle.std.specs.Prelude.{◌≡◌, ◌⊎◌, All, IfErr, IfOk, IsOkUnless, false, length, map, true};

use super::drawn::Drawn;
use super::labels::labels_of;
use super::refused::draw_cycle;
use super::run::Run;
use super::session::read_session;
use judge_check::{Finding, find_refused, text};
use judge_session::{EngineFault, Inquiry, Unanswered, build, messages_of};
use out_picture::{DrawOptions, EventLabel, NotedPicture, with_labels};
use pd_gather::ByteSource;
use pd_match::Place;
use pd_report::{Report, ReportFault, WriteFault};
use pd_spec::Spec;
use read_notes::EventNote;
use read_traces::Trace;
use std::alloc::{AllocError, Global};
use std::io::Write;
use std::random::RandomSource;
use std::sync::Wait;
use std::thread::Threads;

/// What a call to draw came to, if nothing failed.
#[derive(Debug, Drop)]
pub enum DrawOutcome {
    /// The picture is written.
    Written,
    /// The picture is written of a session that is refused for a causal cycle, as the report says: the cycle is marked.
    CycleWritten,
    /// No picture is written: something in what a check finds, of which this is the text, stands against it.
    Refused(Vec<u8>),
    /// No picture is written: there is no predicate of the name that was asked for.
    NoPredicate,
    /// No picture is written: there is no evidence of the kind that was asked for.
    NoEvidence,
}

/// What is drawn of a well-formed session and a report on it.
fn draw_formed(
    alloc: Global,
    run: &Run<'_, '_>,
    claimed: &Report,
    messages: u64,
    scope: &DrawOptions<'_>,
) -> Result<Drawn, AllocError>
    requires formed { AreWellFormed (document_view run.now.spec.now) (traces_view run.now.traces.now)
        run.now.computation.now messages }
    requires pairs { IsMessageList (computation_view run.now.traces.now) (pairs_view run.now.pairs.now) }
    ensures { IfOk result (DrawsTraces (document_view run.now.spec.now) (traces_view run.now.traces.now)
        (report_view claimed.now) (scope_view scope.now)) }
{
    let drawn = super::drawn::draw(alloc, run, claimed, messages, scope)?;
    Ok(drawn)
}

/// The picture of a session that is refused for a causal cycle, if the report says so, and else why it comes to no
/// answers.
fn draw_unanswered(
    alloc: Global,
    spec: &Spec,
    claimed: &Report,
    traces: &[Trace],
    pairs: &[(Place, Place)],
    scope: &DrawOptions<'_>,
    labels: &[EventLabel],
    unanswered: Unanswered,
) -> Result<Drawn, Unanswered>
    requires messages { IsMessageList (computation_view traces.now) (pairs_view pairs.now) }
    requires traces { AreTraces (document_view spec.now).names traces.now }
    requires refused { IsUnanswered (IsTracesReport (document_view spec.now) (traces_view traces.now)) unanswered }
    ensures drawn { IfOk result (DrawsTraces (document_view spec.now) (traces_view traces.now)
        (report_view claimed.now) (scope_view scope.now)) }
    ensures refused { IfErr result (IsUnanswered (IsTracesReport (document_view spec.now)
        (traces_view traces.now))) }
    ensures undrawn { IfErr result (IsUnanswered (NeedsNoPicture (report_view claimed.now))) }
{
    match unanswered {
        Unanswered::Refused(refusal) => {
            let extent = scope.extent;
            let drawn = draw_cycle(
                alloc, spec, claimed, traces, pairs, &refusal, extent, labels,
            )?;
            match drawn {
                Some(picture) => Ok(Drawn::Cycle(picture)),
                None => Err(Unanswered::Refused(refusal)),
            }
        }
        Unanswered::Memory => Err(Unanswered::Memory),
    }
}

/// What is drawn of a session's traces and a report on it, or the refusal of the messages or of a causal cycle.
fn draw_traces<S: RandomSource>(
    rt: &S,
    alloc: Global,
    spec: &Spec,
    claimed: &Report,
    traces: &[Trace],
    scope: &DrawOptions<'_>,
    notes: &[EventNote],
) -> Result<Drawn, Unanswered>
    requires { AreTraces (document_view spec.now).names traces.now }
    ensures drawn { IfOk result (DrawsTraces (document_view spec.now) (traces_view traces.now)
        (report_view claimed.now) (scope_view scope.now)) }
    ensures refused { IfErr result (IsUnanswered (IsTracesReport (document_view spec.now)
        (traces_view traces.now))) }
    ensures undrawn { IfErr result (IsUnanswered (NeedsNoPicture (report_view claimed.now))) }
{
    let matched = messages_of(rt, alloc, spec, traces)?;
    let pairs = matched.pairs(alloc)?;
    let labels = labels_of(alloc, spec.names(), traces, notes)?;
    match build(alloc, spec, traces, matched) {
        Ok((computation, messages)) => {
            let run = Run {
                spec,
                computation: &computation,
                traces,
                pairs: &pairs,
                labels: &labels,
            };
            let drawn = draw_formed(alloc, &run, claimed, messages, scope)?;
            Ok(drawn)
        }
        Err(unanswered) => draw_unanswered(
            alloc, spec, claimed, traces, &pairs, scope, &labels, unanswered,
        ),
    }
}

/// What is drawn, if the session is well formed, or why it comes to no answers.
fn draw_session<S: RandomSource + Threads + Wait + Sync, R: ByteSource + Send + Drop>(
    rt: &S,
    alloc: Global,
    claimed: &Report,
    inquiry: Inquiry<'_, '_, '_>,
    streams: Vec<R>,
    scope: &DrawOptions<'_>,
    notes: &[EventNote],
) -> Result<Drawn, Unanswered>
    requires open { All (λ r. R.has_ended r ≡ false) streams.items }
    ensures drawn { IfOk result (DrawsOf (inquiry_view inquiry.entry) (report_view claimed.now)
        (map R.left streams.items) (scope_view scope.now)) }
    ensures refused { IfErr result (IsUnanswered
        (IsReportOfInputs (inquiry_view inquiry.entry) (map R.left streams.items))) }
    ensures undrawn { IfErr result (IsUnanswered (NeedsNoPicture (report_view claimed.now))) }
{
    let session = read_session(rt, alloc, inquiry, streams)?;
    let drawn = draw_traces(
        rt,
        alloc,
        &session.spec,
        claimed,
        &session.traces,
        scope,
        notes,
    )?;
    Ok(drawn)
}

/// What is drawn of a session and a report on it.
fn draw_claimed<S: RandomSource + Threads + Wait + Sync, R: ByteSource + Send + Drop>(
    rt: &S,
    alloc: Global,
    claimed: &Report,
    inquiry: Inquiry<'_, '_, '_>,
    streams: Vec<R>,
    scope: &DrawOptions<'_>,
    notes: &[EventNote],
) -> Result<Drawn, EngineFault>
    requires open { All (λ r. R.has_ended r ≡ false) streams.items }
    ensures drawn { IfOk result (DrawsOf (inquiry_view inquiry.entry) (report_view claimed.now)
        (map R.left streams.items) (scope_view scope.now)) }
    ensures err { IsOkUnless result EngineFault.Memory }
{
    match draw_session(rt, alloc, claimed, inquiry, streams, scope, notes) {
        Ok(drawn) => Ok(drawn),
        Err(unanswered) => match unanswered {
            Unanswered::Refused(refusal) => Ok(Drawn::Bad(find_refused(claimed, &refusal))),
            Unanswered::Memory => Err(EngineFault::Memory),
        },
    }
}

/// What is drawn of a session and of a report's bytes.
fn draw_read<S: RandomSource + Threads + Wait + Sync, R: ByteSource + Send + Drop>(
    rt: &S,
    alloc: Global,
    inquiry: Inquiry<'_, '_, '_>,
    report: &[u8],
    streams: Vec<R>,
    scope: &DrawOptions<'_>,
    notes: &[EventNote],
) -> Result<Drawn, EngineFault>
    requires open { All (λ r. R.has_ended r ≡ false) streams.items }
    ensures drawn { IfOk result (Draws (inquiry_view inquiry.entry) report.now (map R.left streams.items)
        (scope_view scope.now)) }
    ensures err { IsOkUnless result EngineFault.Memory }
{
    match pd_report::read(alloc, report) {
        Ok(claimed) => draw_claimed(rt, alloc, &claimed, inquiry, streams, scope, notes),
        Err(ReportFault::Line(line)) => Ok(Drawn::Bad(Finding::NotRead(line))),
        Err(ReportFault::Memory) => Err(EngineFault::Memory),
    }
}

/// Writes a picture's text; this is the outcome if all of it is written.
///
/// # Errors
/// `Memory` leaves nothing written. `Write` leaves a prefix of the text written, and not all of it.
fn write_picture<W: Write>(
    alloc: Global,
    picture: &out_svg::Drawing,
    writer: &mut W,
    outcome: DrawOutcome,
) -> Result<DrawOutcome, EngineFault>
    ensures written { Writes (λ text. text ≡ drawing_text picture.now) (call_end result)
        (W.contents writer.old) (W.contents writer.new) }
    ensures whole { IfOk result (λ drawing. drawing ≡ outcome) }
    ensures err { IfErr result (λ fault. (fault ≡ EngineFault.Memory) ⊎ (fault ≡ EngineFault.Write)) }
{
    match out_svg::write(alloc, picture, writer) {
        Ok(()) => Ok(outcome),
        Err(fault) => match fault {
            WriteFault::Memory => Err(EngineFault::Memory),
            WriteFault::Write => Err(EngineFault::Write),
        },
    }
}

/// Writes a picture's text, with its labels if it is noted; this is the outcome if all of it is written.
///
/// # Errors
/// As `write_picture`.
fn write_noted<W: Write>(
    alloc: Global,
    picture: NotedPicture,
    is_noted: bool,
    writer: &mut W,
    outcome: DrawOutcome,
) -> Result<DrawOutcome, EngineFault>
    ensures written { Writes (IsTextWithNotes is_noted picture.drawing) (call_end result)
        (W.contents writer.old) (W.contents writer.new) }
    ensures whole { IfOk result (λ drawing. drawing ≡ outcome) }
    ensures err { IfErr result (λ fault. (fault ≡ EngineFault.Memory) ⊎ (fault ≡ EngineFault.Write)) }
{
    let drawing = with_labels(alloc, picture, is_noted)?;
    write_picture(alloc, &drawing, writer, outcome)
}

/// Whether there are notes.
fn are_notes(notes: &[EventNote]) -> bool
    ensures none { length notes.now ≡ 0 → result ≡ false }
{
    notes.len() > 0
}

/// Draws a session and a report on it, and writes the picture as SVG: the run, and the evidence of the predicate of
/// the name that is asked for, or without a name of the first predicate that has evidence; of the kind that is asked
/// for, if one is. Of a session that is refused for a causal cycle, as the report says, it draws the run with its
/// cycle. It reads and judges both as `check_inquiry` does. If something in what a check finds stands against the
/// picture, nothing is written, and the text of what it finds is given: the report isn't read, or it is a refusal or
/// the session is refused, or the counts or the names are wrong, or the evidence that would be drawn is bad. What is
/// noted of events that are shown stands in labels over all else; notes on other events are passed over.
///
/// # Errors
/// `Memory` leaves nothing written. `Write` leaves a prefix of the picture's text written, and not all of it. A read
/// that fails is a fault of its stream.
pub fn draw<S: RandomSource + Threads + Wait + Sync, R: ByteSource + Send + Drop, W: Write>(
    rt: &S,
    alloc: Global,
    inquiry: Inquiry<'_, '_, '_>,
    report: &[u8],
    streams: Vec<R>,
    scope: &DrawOptions<'_>,
    notes: &[EventNote],
    writer: &mut W,
) -> Result<DrawOutcome, EngineFault>
    requires open { All (λ r. R.has_ended r ≡ false) streams.items }
    // The picture's text is written whole, or a write fails and a prefix of it is; else nothing is. Without notes it is
    // the text of the picture alone.
    ensures written { WritesPicture (inquiry_view inquiry.entry) report.now (map R.left streams.items)
        (scope_view scope.now) true result (W.contents writer.old) (W.contents writer.new) }
    ensures unnoted { length notes.now ≡ 0 → WritesPicture (inquiry_view inquiry.entry) report.now
        (map R.left streams.items) (scope_view scope.now) false result (W.contents writer.old)
        (W.contents writer.new) }
    // What stands against a picture is what a check finds, or that no predicate has the name, or the evidence,
    // that is asked for; and never that the session is refused for a causal cycle as the report says.
    ensures shown { IfOk result (ShowsEnd (inquiry_view inquiry.entry) report.now (map R.left streams.items)
        (scope_view scope.now)) }
    ensures err { IfErr result (λ fault. (fault ≡ EngineFault.Memory) ⊎ (fault ≡ EngineFault.Write)) }
{
    let is_noted = are_notes(notes);
    let drawn = draw_read(rt, alloc, inquiry, report, streams, scope, notes)?;
    match drawn {
        Drawn::Picture(picture) => {
            write_noted(alloc, picture, is_noted, writer, DrawOutcome::Written)
        }
        Drawn::Cycle(picture) => {
            write_noted(alloc, picture, is_noted, writer, DrawOutcome::CycleWritten)
        }
        Drawn::Bad(finding) => Ok(DrawOutcome::Refused(text(alloc, &finding)?)),
        Drawn::NoPredicate => Ok(DrawOutcome::NoPredicate),
        Drawn::NoEvidence => Ok(DrawOutcome::NoEvidence),
    }
}
