//! The report of a session whose streams are all there.
ghost use Rattle.def_format.specs.Documents.{IsDocument};
ghost use Rattle.def_format.specs.Limits.{worker_limit};
ghost use Rattle.def_format.specs.Readings.{Ended};
ghost use Rattle.def_judgement.specs.Headline.{IsTrueReport};
ghost use Rattle.def_judgement.specs.Judgements.{AreResultsOf, IsJudgement, IsResultOf, ended_stream, ended_streams};
ghost use Rattle.def_format.specs.Documents.{Inquiry};
ghost use Rattle.pd_events.specs.Views.{result_view};
ghost use Rattle.pd_gather.specs.Views.{ReadingFits, results_view};
ghost use Rattle.pd_report.specs.Views.{report_view};
ghost use Rattle.pd_spec.specs.Views.{document_view};
ghost use Rattle.std.specs.Prelude.{◌≡◌, ◌≤◌, All, IfOk, IsOkUnless, length, map, string_bytes};

use judge_session::EngineFault;
use pd_engine::{NoGate, Report, report_of};
use pd_events::{StreamFault, TraceReader};
use pd_gather::Gathered;
use pd_spec::Spec;
use read_traces::Trace;
use std::alloc::{AllocError, Global};
use std::random::RandomSource;
use std::sync::Wait;
use std::thread::Threads;

/// What a stream with these bytes gives.
fn read_text(
    alloc: Global,
    spec: &Spec,
    bytes: &[u8],
) -> Result<Result<Trace, StreamFault>, AllocError>
    ensures result { IfOk result (λ read. IsResultOf (document_view spec.now).names (ended_stream bytes.now)
        (result_view read)) }
    ensures fits { IfOk result (λ read. ReadingFits (document_view spec.now).names read) }
{
    let mut reader = TraceReader::new(alloc, spec);
    reader.feed(bytes)?;
    reader.end()?;
    Ok(reader.outcome())
}

/// What streams with these texts give, read one after another.
fn read_texts(alloc: Global, spec: &Spec, streams: &[String]) -> Result<Gathered, AllocError>
    ensures count { IfOk result (λ gathered. gathered.streams ≡ length streams.now) }
    ensures results { IfOk result (λ gathered. AreResultsOf (document_view spec.now).names
        (ended_streams (map string_bytes streams.now)) (results_view gathered.readings.items)) }
    ensures fits { IfOk result (λ gathered. All (ReadingFits (document_view spec.now).names) gathered.readings.items) }
{
    let mut readings = Vec::with_capacity(alloc, streams.len())?;
    for stream in streams {
        readings.push(read_text(alloc, spec, stream.as_bytes())?)?;
    }
    Ok(Gathered {
        streams: streams.len() as u64,
        readings,
    })
}

/// The report of a session with this document and streams with these texts, which is true. The workers, from 1 to 16,
/// change how long it takes, and nothing of the report.
///
/// # Errors
/// `Memory`.
pub(crate) fn report_of_texts<S: RandomSource + Threads + Wait + Sync>(
    rt: &S,
    alloc: Global,
    spec: &Spec,
    streams: &[String],
    workers: u64,
) -> Result<Report, EngineFault>
    requires some_workers { 1 ≤ workers }
    requires few_workers { workers ≤ worker_limit }
    ensures right { IfOk result (λ report. (inquiry : Inquiry) → IsDocument inquiry (document_view spec.now)
        → IsJudgement inquiry (ended_streams (map string_bytes streams.now)) (report_view report)) }
    ensures truth { IfOk result (λ report. (inquiry : Inquiry) → IsDocument inquiry (document_view spec.now)
        → IsTrueReport inquiry (ended_streams (map string_bytes streams.now)) (report_view report)) }
    ensures err { IsOkUnless result EngineFault.Memory }
{
    def_judgement::judgement_is_true();
    let gathered = read_texts(alloc, spec, streams)?;
    report_of(rt, alloc, spec, gathered, workers, &NoGate)
}
