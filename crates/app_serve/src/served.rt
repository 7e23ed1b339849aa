//! Judges streams that come by connections, and writes the report in the format that is asked for.
ghost use Rattle.app_arguments.specs.Views.{format_view};
ghost use Rattle.app_host.specs.Faults.{judgement_ending};
ghost use Rattle.app_host.specs.FileSources.{ReadLeaves};
ghost use Rattle.app_serve.specs.Served.{IsServed, OfServed};
ghost use Rattle.def_format.specs.Documents as documents;
ghost use Rattle.def_judgement.specs.Writes.{IsTextOfStreams, Source, Writes};
ghost use Rattle.judge_explore.specs.Explored.{IsOwed, IsOwnRefusal, Object};
ghost use Rattle.judge_explore.specs.Sources.{StreamFile as SourceFile};
ghost use Rattle.judge_runs.specs.Wishes.{Condition};
ghost use Rattle.judge_session.specs.Ends.{call_end};
ghost use Rattle.judge_session.specs.Inquiries.{inquiry_view};
ghost use Rattle.judge_session.specs.Unanswered.{IsUnanswered};
ghost use Rattle.pd_engine.specs.Ends.{IsGiven};
ghost use Rattle.std.specs.Prelude.{◌≡◌, ◌⊎◌, All, IfErr, IfOk, List, Ok, [], false, map};

use app_arguments::Format;
use judge_explore::{Form, Page, explore_watched, refused_page, write_page};
use judge_session::{EngineFault, Unanswered};
use pd_engine::{
    ByteSource, Crew, Gate, Inquiry, Observer, Report, report_inquiry_watched, write_report,
};
use std::alloc::Global;
use std::io::Write;
use std::random::RandomSource;
use std::sync::Wait;
use std::thread::Threads;

/// The object of the refusal of a session.
///
/// # Errors
/// `Memory`.
fn refused_object(alloc: Global, unanswered: Unanswered) -> Result<Page, EngineFault>
    // It is owed of each inquiry and of readers of which the refusal is, whatever the files.
    ensures page { (inquiry : documents.Inquiry) (files : List SourceFile) (inputs : List Source)
        → IsUnanswered (IsOwnRefusal inquiry inputs) unanswered → IfOk result (λ page.
        IsOwed inquiry Object files inputs (IsGiven (Ok page.report)) page.text.items) }
    ensures err { IfErr result (λ fault. fault ≡ EngineFault.Memory) }
{
    match unanswered {
        Unanswered::Refused(refusal) => {
            let page = refused_page(alloc, Form::Object, refusal, &[])?;
            Ok(page)
        }
        Unanswered::Memory => Err(EngineFault::Memory),
    }
}

/// The object of the session of a document, with what is asked, and of the streams, or of its refusal. The observer
/// watches while the streams are read.
///
/// # Errors
/// `Memory`.
fn object_of<
    S: RandomSource + Threads + Wait + Sync,
    R: ByteSource + Send + Drop,
    G: Gate + Sync,
    B: Observer + Sync,
>(
    crew: &Crew<'_, '_, S, G>,
    alloc: Global,
    inquiry: Inquiry<'_, '_, '_>,
    streams: Vec<R>,
    observer: &B,
) -> Result<Page, EngineFault>
    requires { All (λ stream. R.has_ended stream ≡ false) streams.items }
    ensures page { IfOk result (λ page. IsOwed (inquiry_view inquiry.entry) Object [] (map R.left streams.items)
        (IsGiven (Ok page.report)) page.text.items) }
    ensures err { IfErr result (λ fault. fault ≡ EngineFault.Memory) }
{
    match explore_watched(crew, alloc, inquiry, Form::Object, &[], streams, observer) {
        Ok(page) => Ok(page),
        Err(unanswered) => refused_object(alloc, unanswered),
    }
}

/// Makes the object of a session, and writes it. It gives the report.
///
/// # Errors
/// `Memory` leaves nothing written. `Write` leaves a prefix of the object written, and not all of it.
fn write_object<
    S: RandomSource + Threads + Wait + Sync,
    R: ByteSource + Send + Drop,
    G: Gate + Sync,
    B: Observer + Sync,
    O: Write,
>(
    crew: &Crew<'_, '_, S, G>,
    alloc: Global,
    inquiry: Inquiry<'_, '_, '_>,
    streams: Vec<R>,
    observer: &B,
    output: &mut O,
) -> Result<Report, EngineFault>
    requires { All (λ stream. R.has_ended stream ≡ false) streams.items }
    ensures written { Writes (IsOwed (inquiry_view inquiry.entry) Object [] (map R.left streams.items)
        (IsGiven result)) (call_end result) (O.contents output.old) (O.contents output.new) }
    ensures err { IfErr result (λ fault. (fault ≡ EngineFault.Memory) ⊎ (fault ≡ EngineFault.Write)) }
{
    let page = object_of(crew, alloc, inquiry, streams, observer)?;
    write_page(page, output)
}

/// Judges a session, and writes the text of its report. It gives the report.
///
/// # Errors
/// `Memory` leaves nothing written. `Write` leaves a prefix of the text written, and not all of it.
fn write_text<
    S: RandomSource + Threads + Wait + Sync,
    R: ByteSource + Send + Drop,
    G: Gate + Sync,
    B: Observer + Sync,
    O: Write,
>(
    crew: &Crew<'_, '_, S, G>,
    alloc: Global,
    inquiry: Inquiry<'_, '_, '_>,
    streams: Vec<R>,
    observer: &B,
    output: &mut O,
) -> Result<Report, EngineFault>
    requires { All (λ stream. R.has_ended stream ≡ false) streams.items }
    ensures written { Writes (IsTextOfStreams (inquiry_view inquiry.entry) (map R.left streams.items)
        (IsGiven result)) (call_end result) (O.contents output.old) (O.contents output.new) }
    ensures err { IfErr result (λ fault. (fault ≡ EngineFault.Memory) ⊎ (fault ≡ EngineFault.Write)) }
{
    let report = report_inquiry_watched(crew, alloc, inquiry, streams, observer)?;
    write_report(alloc, report, output)
}

/// Judges a session, and writes its report in this format. It gives the report.
///
/// # Errors
/// As `write_object` and `write_text`.
fn write_served<
    S: RandomSource + Threads + Wait + Sync,
    R: ByteSource + Send + Drop,
    G: Gate + Sync,
    B: Observer + Sync,
    O: Write,
>(
    crew: &Crew<'_, '_, S, G>,
    alloc: Global,
    inquiry: Inquiry<'_, '_, '_>,
    streams: Vec<R>,
    format: Format,
    observer: &B,
    output: &mut O,
) -> Result<Report, EngineFault>
    requires { All (λ stream. R.has_ended stream ≡ false) streams.items }
    ensures written { Writes (IsServed (format_view format) (inquiry_view inquiry.entry) (map R.left streams.items)
        (IsGiven result)) (call_end result) (O.contents output.old) (O.contents output.new) }
    ensures err { IfErr result (λ fault. (fault ≡ EngineFault.Memory) ⊎ (fault ≡ EngineFault.Write)) }
{
    match format {
        Format::Plain => write_text(crew, alloc, inquiry, streams, observer, output),
        Format::Json => write_object(crew, alloc, inquiry, streams, observer, output),
    }
}

/// Judges a document, with what is asked, and the streams while the observer watches, writes the report in this format,
/// and flushes the output. It gives the report.
///
/// # Errors
/// `Memory` leaves nothing written. `Write` leaves a part of the report written, or all of it if only the flush failed.
pub(crate) fn judge_served<
    S: RandomSource + Threads + Wait + Sync,
    R: ByteSource + Send + Drop,
    G: Gate + Sync,
    B: Observer + Sync,
    O: Write,
>(
    crew: &Crew<'_, '_, S, G>,
    alloc: Global,
    inquiry: Inquiry<'_, '_, '_>,
    streams: Vec<R>,
    format: Format,
    observer: &B,
    output: &mut O,
) -> Result<Report, EngineFault>
    requires { All (λ stream. R.has_ended stream ≡ false) streams.items }
    // This is said for all answers on which the run may be to fail.
    ensures written { (fail_on : List Condition) → ReadLeaves (OfServed (format_view format)
        (map R.left streams.items) fail_on (inquiry_view inquiry.entry)) (judgement_ending fail_on result)
        (O.contents output.old) (O.contents output.new) }
    ensures err { IfErr result (λ fault. (fault ≡ EngineFault.Memory) ⊎ (fault ≡ EngineFault.Write)) }
{
    let report = write_served(crew, alloc, inquiry, streams, format, observer, output)?;
    if output.flush().is_err() {
        return Err(EngineFault::Write);
    }
    Ok(report)
}
