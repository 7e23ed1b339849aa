//! Judges a bundle, and writes its report.
ghost use Rattle.read_bundle.specs.PartsRead.{IsKept};
ghost use Rattle.judge_session.specs.Ends.{call_end};
ghost use Rattle.pd_engine.specs.Judging.{JudgesBundle, JudgesBundleToOutcome};
ghost use Rattle.pd_engine.specs.SessionReports.{IsReportOfRead};
ghost use Rattle.judge_session.specs.Unanswered.{IsUnanswered};
ghost use Rattle.def_format.specs.Limits.{worker_limit};
ghost use Rattle.def_format.specs.Documents.{IsDocument, plain};
ghost use Rattle.def_judgement.specs.Judgements.{IsJudgement, RawStream};
ghost use Rattle.def_judgement.specs.Writes.{IsBrokenOff, IsTooLong, Silent, Source};
ghost use Rattle.pd_report.specs.Views.{report_view};
ghost use Rattle.pd_spec.specs.Views.{document_view};
ghost use Rattle.read_bundle.specs.Steps.{HasParts};
ghost use Rattle.std.specs.Prelude.{◌≡◌, ◌≤◌, ◌∷◌, [], ℕ, Err, IfErr, IfOk, List, false};

use super::Outcome;
use super::judges::write_report;
use super::outcome::outcome_of;
use super::reports::report_by;
use def_format::DOCUMENT_BYTE_LIMIT;
use judge_session::{EngineFault, Unanswered, of_document, read_document, settled};
use pd_expand::Crew;
use pd_gather::ByteSource;
use pd_level::Gate;
use pd_report::Report;
use pd_spec::{Spec, SpecFault};
use read_bundle::{Bundle, read_document_part, read_stream_parts, skip_parts};
use std::alloc::Global;
use std::io::Write;
use std::random::RandomSource;
use std::sync::Wait;
use std::thread::Threads;

/// The document in what is kept of a bundle's first part, or its refusal.
fn read_kept_document(alloc: Global, kept: &[u8]) -> Result<Spec, Unanswered>
    ensures read { IfOk result (λ spec. (part : List ℕ) → IsKept kept.now part
        → IsDocument (plain part) (document_view spec)) }
    ensures refused { IfErr result (IsUnanswered (λ report. (part : List ℕ) → IsKept kept.now part
        → (streams : List RawStream) → IsJudgement (plain part) streams report)) }
{
    if kept.len() > DOCUMENT_BYTE_LIMIT {
        return Err(Unanswered::Refused(of_document(alloc, SpecFault::Long)?));
    }
    read_document(alloc, kept)
}

/// The report of the streams in the parts that are left, of a session with this document.
///
/// # Errors
/// `BundleLong` if the bundle has over 67,108,864 bytes, `Read` if a read fails, and `Memory`.
fn streams_report_of<S: RandomSource + Threads + Wait + Sync, R: ByteSource, G: Gate + Sync>(
    crew: &Crew<'_, '_, S, G>,
    alloc: Global,
    spec: &Spec,
    reader: &mut R,
    bundle: &mut Bundle,
    begins: bool,
) -> Result<Report, EngineFault>
    requires ready { bundle.old.ended ≡ false → R.has_ended reader.old ≡ false }
    ensures report { IfOk result (λ report. (input : Source) (document : List ℕ)
        → IsDocument (plain document) (document_view spec.now)
        → HasParts begins input (R.left reader.old) (document ∷ []) bundle.old
        → IsReportOfRead input (report_view report)) }
    ensures long { result ≡ Err EngineFault.BundleLong → (input : Source) (closed : List (List ℕ))
        → HasParts begins input (R.left reader.old) closed bundle.old → IsTooLong input }
    ensures cause { result ≡ Err EngineFault.Read → (input : Source) (closed : List (List ℕ))
        → HasParts begins input (R.left reader.old) closed bundle.old → IsBrokenOff input }
    ensures err { IfErr result (λ _. call_end result ≡ Silent) }
{
    let gathered = read_stream_parts(alloc, spec, reader, bundle, begins)?;
    let report = report_by(crew, alloc, spec, gathered)?;
    Ok(report)
}

/// The report of a refused document, once the parts that are left were read.
///
/// # Errors
/// `BundleLong` if the bundle has over 67,108,864 bytes, `Read` if a read fails, and `Memory`.
fn refusal_report_of<R: ByteSource>(
    reader: &mut R,
    bundle: &mut Bundle,
    begins: bool,
    unanswered: Unanswered,
) -> Result<Report, EngineFault>
    requires ready { bundle.old.ended ≡ false → R.has_ended reader.old ≡ false }
    ensures report { IfOk result (λ report. (input : Source) (document : List ℕ)
        → IsUnanswered (λ r. (streams : List RawStream) → IsJudgement (plain document) streams r) unanswered
        → HasParts begins input (R.left reader.old) (document ∷ []) bundle.old
        → IsReportOfRead input (report_view report)) }
    ensures long { result ≡ Err EngineFault.BundleLong → (input : Source) (closed : List (List ℕ))
        → HasParts begins input (R.left reader.old) closed bundle.old → IsTooLong input }
    ensures cause { result ≡ Err EngineFault.Read → (input : Source) (closed : List (List ℕ))
        → HasParts begins input (R.left reader.old) closed bundle.old → IsBrokenOff input }
    ensures err { IfErr result (λ _. call_end result ≡ Silent) }
{
    if begins {
        skip_parts(reader, bundle)?;
        let report = settled(Err(unanswered))?;
        return Ok(report);
    }
    let report = settled(Err(unanswered))?;
    Ok(report)
}

/// The report of the bundle that the reader gives, which is read to its end in pieces.
///
/// # Errors
/// `BundleLong` if it has over 67,108,864 bytes, `Read` if a read fails, and `Memory`.
fn bundle_report<S: RandomSource + Threads + Wait + Sync, R: ByteSource + Drop, G: Gate + Sync>(
    crew: &Crew<'_, '_, S, G>,
    alloc: Global,
    reader: R,
) -> Result<Report, EngineFault>
    requires open { R.has_ended reader ≡ false }
    ensures report { IfOk result (λ report. IsReportOfRead (R.left reader) (report_view report)) }
    ensures long { result ≡ Err EngineFault.BundleLong → IsTooLong (R.left reader) }
    ensures cause { result ≡ Err EngineFault.Read → IsBrokenOff (R.left reader) }
    ensures err { IfErr result (λ _. call_end result ≡ Silent) }
{
    let mut reader = reader;
    let mut bundle = Bundle::new(alloc)?;
    let (document, begins) = read_document_part(alloc, &mut reader, &mut bundle)?;
    match read_kept_document(alloc, &document) {
        Ok(spec) => streams_report_of(crew, alloc, &spec, &mut reader, &mut bundle, begins),
        Err(unanswered) => refusal_report_of(&mut reader, &mut bundle, begins, unanswered),
    }
}

/// Reads a bundle, judges it, and writes its report, which it gives back. Its first part is the document, and each of
/// the others is a whole stream. They are read one after another, in pieces, and no bundle is held in memory. The
/// workers, from 1 to 16, and the gate change how long it takes, and nothing that is written.
///
/// # Errors
/// `Memory`, `Read` if the reader fails, and `BundleLong` if it has more than 67,108,864 bytes leave nothing written.
/// `Write` leaves a prefix of the report written, and not all of it.
pub fn write_bundle_report<
    S: RandomSource + Threads + Wait + Sync,
    R: ByteSource + Drop,
    W: Write,
    G: Gate + Sync,
>(
    rt: &S,
    alloc: Global,
    reader: R,
    workers: u64,
    gate: &G,
    writer: &mut W,
) -> Result<Report, EngineFault>
    requires open { R.has_ended reader ≡ false }
    requires some_workers { 1 ≤ workers }
    requires few_workers { workers ≤ worker_limit }
    ensures { JudgesBundle (R.left reader) result (W.contents writer.old) (W.contents writer.new) }
{
    let crew = Crew::new(rt, workers, gate);
    let report = bundle_report(&crew, alloc, reader)?;
    write_report(alloc, report, writer)
}

/// Judges a bundle as `write_bundle_report` does, and gives no more of the report than its outcome.
///
/// # Errors
/// As `write_bundle_report`.
pub fn judge_bundle<
    S: RandomSource + Threads + Wait + Sync,
    R: ByteSource + Drop,
    W: Write,
    G: Gate + Sync,
>(
    rt: &S,
    alloc: Global,
    reader: R,
    workers: u64,
    gate: &G,
    writer: &mut W,
) -> Result<Outcome, EngineFault>
    requires open { R.has_ended reader ≡ false }
    requires some_workers { 1 ≤ workers }
    requires few_workers { workers ≤ worker_limit }
    ensures { JudgesBundleToOutcome (R.left reader) result (W.contents writer.old) (W.contents writer.new) }
{
    outcome_of(write_bundle_report(rt, alloc, reader, workers, gate, writer))
}
