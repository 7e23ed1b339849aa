//! Judges a session, and writes its report.
ghost use Rattle.pd_engine.specs.Ends.{IsTextAs};
ghost use Rattle.pd_engine.specs.Judging.{JudgesStreams, JudgesToOutcome};
ghost use Rattle.def_format.specs.Documents.{plain};
ghost use Rattle.def_format.specs.Limits.{worker_limit};
ghost use Rattle.def_judgement.specs.Writes.{Writes};
ghost use Rattle.pd_report.specs.Views.{report_view};
ghost use Rattle.judge_session.specs.Ends.{call_end};
ghost use Rattle.judge_session.specs.Inquiries.{inquiry_view};
ghost use Rattle.std.specs.Prelude.{◌≡◌, ◌⊎◌, ◌≤◌, All, IfErr, false, map};

use super::Outcome;
use super::outcome::outcome_of;
use super::reports::streams_report;
use judge_session::{EngineFault, Inquiry};
use pd_expand::Crew;
use pd_gather::{ByteSource, NoObserver, Observer};
use pd_level::Gate;
use pd_report::{Report, write};
use pd_spec::Options;
use std::alloc::Global;
use std::io::Write;
use std::random::RandomSource;
use std::sync::Wait;
use std::thread::Threads;

/// Writes a report, and gives it back. It doesn't flush the writer.
///
/// # Errors
/// `Memory` leaves nothing written. `Write` leaves a prefix of the report written, and not all of it.
pub fn write_report<W: Write>(
    alloc: Global,
    report: Report,
    writer: &mut W,
) -> Result<Report, EngineFault>
    ensures written { Writes (IsTextAs (report_view report) result) (call_end result)
        (W.contents writer.old) (W.contents writer.new) }
    ensures err { IfErr result (λ fault. (fault ≡ EngineFault.Memory) ⊎ (fault ≡ EngineFault.Write)) }
{
    write(alloc, &report, writer)?;
    Ok(report)
}

/// Judges a session, and writes its report. The observer, if there is one, watches while the streams are read.
fn judge_streams<
    S: RandomSource + Threads + Wait + Sync,
    R: ByteSource + Send + Drop,
    W: Write,
    G: Gate + Sync,
    O: Observer + Sync,
>(
    crew: &Crew<'_, '_, S, G>,
    alloc: Global,
    inquiry: Inquiry<'_, '_, '_>,
    readers: Vec<R>,
    observer: Option<&O>,
    writer: &mut W,
) -> Result<Report, EngineFault>
    requires { All (λ r. R.has_ended r ≡ false) readers.items }
    ensures { JudgesStreams (inquiry_view inquiry.entry) (map R.left readers.items) result
        (W.contents writer.old) (W.contents writer.new) }
{
    let report = streams_report(crew, alloc, inquiry, readers, observer)?;
    write_report(alloc, report, writer)
}

/// Judges the session of the document in these bytes and of the streams, and writes its report. The streams are read
/// each on its own thread; none is read if the document is refused, or if they are too many. A read that fails is a
/// fault of its stream. The workers, from 1 to 16, and the gate change how long it takes, and nothing that is
/// written.
///
/// # Errors
/// `Memory` leaves nothing written. `Write` leaves a prefix of the report written, and not all of it.
pub fn judge<
    S: RandomSource + Threads + Wait + Sync,
    R: ByteSource + Send + Drop,
    W: Write,
    G: Gate + Sync,
>(
    rt: &S,
    alloc: Global,
    spec: &[u8],
    readers: Vec<R>,
    workers: u64,
    gate: &G,
    writer: &mut W,
) -> Result<Outcome, EngineFault>
    requires open { All (λ r. R.has_ended r ≡ false) readers.items }
    requires some_workers { 1 ≤ workers }
    requires few_workers { workers ≤ worker_limit }
    ensures { JudgesToOutcome (plain spec.now) (map R.left readers.items) result
        (W.contents writer.old) (W.contents writer.new) }
{
    let options = Options::none(alloc);
    let inquiry = Inquiry {
        document: spec,
        options: &options,
    };
    outcome_of(judge_inquiry(rt, alloc, inquiry, readers, workers, gate, writer))
}

/// Judges a session as `judge` does, with what is asked of it beside its document, and gives the report that it wrote.
///
/// # Errors
/// As `judge`.
pub fn judge_inquiry<
    S: RandomSource + Threads + Wait + Sync,
    R: ByteSource + Send + Drop,
    W: Write,
    G: Gate + Sync,
>(
    rt: &S,
    alloc: Global,
    inquiry: Inquiry<'_, '_, '_>,
    readers: Vec<R>,
    workers: u64,
    gate: &G,
    writer: &mut W,
) -> Result<Report, EngineFault>
    requires open { All (λ r. R.has_ended r ≡ false) readers.items }
    requires some_workers { 1 ≤ workers }
    requires few_workers { workers ≤ worker_limit }
    ensures { JudgesStreams (inquiry_view inquiry.entry) (map R.left readers.items) result
        (W.contents writer.old) (W.contents writer.new) }
{
    let crew = Crew::new(rt, workers, gate);
    judge_streams(&crew, alloc, inquiry, readers, None::<&NoObserver>, writer)
}

/// Judges a session as `judge` does, while the observer watches the streams that are read, on one thread more. It
/// writes once all threads are joined, the observer's too. The observer isn't run if the document is refused, or if the
/// streams are too many; if the system refuses it its thread, it runs once the streams are read. What is written
/// is the report of what the readers gave, whatever it does.
///
/// # Errors
/// `Memory` leaves nothing written. `Write` leaves a prefix of the report written, and not all of it.
pub fn judge_watched<
    S: RandomSource + Threads + Wait + Sync,
    R: ByteSource + Send + Drop,
    W: Write,
    G: Gate + Sync,
    O: Observer + Sync,
>(
    rt: &S,
    alloc: Global,
    spec: &[u8],
    readers: Vec<R>,
    workers: u64,
    gate: &G,
    observer: &O,
    writer: &mut W,
) -> Result<Outcome, EngineFault>
    requires open { All (λ r. R.has_ended r ≡ false) readers.items }
    requires some_workers { 1 ≤ workers }
    requires few_workers { workers ≤ worker_limit }
    ensures { JudgesToOutcome (plain spec.now) (map R.left readers.items) result
        (W.contents writer.old) (W.contents writer.new) }
{
    let options = Options::none(alloc);
    let inquiry = Inquiry {
        document: spec,
        options: &options,
    };
    let crew = Crew::new(rt, workers, gate);
    outcome_of(judge_inquiry_watched(&crew, alloc, inquiry, readers, observer, writer))
}

/// Judges a session as `judge_watched` does, by this crew, with what is asked of it beside its document's bytes, and
/// gives the report that it wrote.
///
/// # Errors
/// As `judge_watched`.
pub fn judge_inquiry_watched<
    S: RandomSource + Threads + Wait + Sync,
    R: ByteSource + Send + Drop,
    W: Write,
    G: Gate + Sync,
    O: Observer + Sync,
>(
    crew: &Crew<'_, '_, S, G>,
    alloc: Global,
    inquiry: Inquiry<'_, '_, '_>,
    readers: Vec<R>,
    observer: &O,
    writer: &mut W,
) -> Result<Report, EngineFault>
    requires { All (λ r. R.has_ended r ≡ false) readers.items }
    ensures { JudgesStreams (inquiry_view inquiry.entry) (map R.left readers.items) result
        (W.contents writer.old) (W.contents writer.new) }
{
    judge_streams(crew, alloc, inquiry, readers, Some(observer), writer)
}
