//! Reduces a recorded run.
ghost use Rattle.app_reduce.specs.Outcomes.{AreTracesOf, ComesOf, ComesOfRun, IsRefusal, IsRefusedBy};
ghost use Rattle.app_reduce.specs.ReducedTexts.{OfStreams};
ghost use Rattle.def_format.specs.Documents.{IsDocumentWithin};
ghost use Rattle.def_format.specs.Readings as readings;
ghost use Rattle.def_judgement.specs.Writes.{Source};
ghost use Rattle.def_recordings.specs.Recordings.{recorded_process_limit};
ghost use Rattle.judge_recordings.specs.Runs.{IsRunOf};
ghost use Rattle.judge_session.specs.Inquiries.{inquiry_view};
ghost use Rattle.judge_session.specs.Unanswered.{IsUnanswered};
ghost use Rattle.pd_spec.specs.Views.{document_view};
ghost use Rattle.std.specs.Prelude.{◌≡◌, ◌⊎◌, ℕ, All, Err, IfErr, IfOk, IsOkUnless, List, Some, false, map};

use super::counts::Counts;
use super::outcome::{MadeSession, Outcome};
use super::recorded_streams::read_streams;
use def_recordings::RECORDED_PROCESS_LIMIT;
use judge_recordings::{RecordedRun, recorded_run};
use judge_reduction::reduced_session;
use judge_session::{EngineFault, Inquiry, Unanswered, of_document, settled};
use pd_gather::ByteSource;
use pd_spec::Spec;
use std::alloc::Global;
use std::random::RandomSource;
use std::sync::Wait;
use std::thread::Threads;

/// The document of an inquiry, or the refusal of each run of it.
///
/// # Errors
/// `Refused` if the document is refused, and `Memory`.
fn read_document(alloc: Global, inquiry: Inquiry<'_, '_, '_>) -> Result<Spec, Unanswered>
    ensures read { IfOk result (λ spec. IsDocumentWithin recorded_process_limit (inquiry_view inquiry.entry)
        (document_view spec)) }
    ensures refused { IfErr result (IsUnanswered (λ report. (streams : List (List ℕ))
        → IsRefusal (inquiry_view inquiry.entry) streams report)) }
{
    let (document, options) = (inquiry.document, inquiry.options);
    match Spec::read_within(alloc, RECORDED_PROCESS_LIMIT, document, options) {
        Ok(spec) => Ok(spec),
        Err(fault) => Err(Unanswered::Refused(of_document(alloc, fault)?)),
    }
}

/// The report of a run that is refused.
///
/// # Errors
/// `Memory`.
fn refused(unanswered: Unanswered) -> Result<Outcome, EngineFault>
    ensures outcome { IfOk result (IsRefusedBy unanswered) }
    ensures err { IsOkUnless result EngineFault.Memory }
{
    let report = settled(Err(unanswered))?;
    Ok(Outcome::Refused(report))
}

/// What comes of a recorded run that isn't refused.
///
/// # Errors
/// `Memory`.
fn run_outcome<S: RandomSource + Threads + Wait + Sync>(
    rt: &S,
    alloc: Global,
    inquiry: Inquiry<'_, '_, '_>,
    spec: Spec,
    run: RecordedRun,
) -> Result<Outcome, EngineFault>
    ensures outcome { IfOk result (λ outcome. (streams : List (List ℕ)) (traces : List readings.Trace)
        → AreTracesOf (inquiry_view inquiry.entry) streams (document_view spec) traces
        → IsRunOf (document_view spec) traces run
        → ComesOfRun (inquiry_view inquiry.entry) streams outcome) }
    ensures err { IsOkUnless result EngineFault.Memory }
{
    let counts = Counts {
        processes: spec.names().processes() as u64,
        events: run.events,
        messages: run.messages,
    };
    let Some(kept) = run.kept else {
        return Ok(Outcome::Unmade(counts));
    };
    let (document, options) = (inquiry.document, inquiry.options);
    let found = reduced_session(rt, alloc, &spec, document, options, &kept.order)?;
    match found {
        Some(session) => Ok(Outcome::Made(MadeSession {
            spec,
            run: counts,
            session,
            numbers: kept.numbers,
        })),
        None => Ok(Outcome::Unmade(counts)),
    }
}

/// What comes of the run of a document that was read and of the streams of these sources.
///
/// # Errors
/// `Read`, if a read of a stream fails, and `Memory`.
fn streams_outcome<S: RandomSource + Threads + Wait + Sync, R: ByteSource + Drop>(
    rt: &S,
    alloc: Global,
    inquiry: Inquiry<'_, '_, '_>,
    spec: Spec,
    sources: Vec<R>,
) -> Result<Outcome, EngineFault>
    requires document { IsDocumentWithin recorded_process_limit (inquiry_view inquiry) (document_view spec) }
    requires open { All (λ source. R.has_ended source ≡ false) sources.items }
    ensures outcome { IfOk result (λ outcome. OfStreams (map R.left sources.items)
        (λ streams. ComesOfRun (inquiry_view inquiry.entry) streams outcome)) }
    ensures unread { result ≡ Err EngineFault.Read
        → ¬ All (λ (source : Source). source.fails ≡ Some false) (map R.left sources.items) }
    ensures err { IfErr result (λ fault. (fault ≡ EngineFault.Memory) ⊎ (fault ≡ EngineFault.Read)) }
{
    let gathered = read_streams(alloc, &spec, sources)?;
    match recorded_run(rt, alloc, &spec, gathered) {
        Ok(run) => run_outcome(rt, alloc, inquiry, spec, run),
        Err(unanswered) => refused(unanswered),
    }
}

/// What comes of the run of a document, with what is asked, and of the streams of these sources, each of which is read
/// whole, one after another. If the document is refused, none is read.
///
/// # Errors
/// `Read`, if a read of a stream fails, and `Memory`.
pub fn reduced_run<S: RandomSource + Threads + Wait + Sync, R: ByteSource + Drop>(
    rt: &S,
    alloc: Global,
    inquiry: Inquiry<'_, '_, '_>,
    sources: Vec<R>,
) -> Result<Outcome, EngineFault>
    requires { All (λ source. R.has_ended source ≡ false) sources.items }
    ensures outcome { IfOk result (ComesOf (inquiry_view inquiry.entry) (map R.left sources.items)) }
    ensures unread { result ≡ Err EngineFault.Read
        → ¬ All (λ (source : Source). source.fails ≡ Some false) (map R.left sources.items) }
    ensures err { IfErr result (λ fault. (fault ≡ EngineFault.Memory) ⊎ (fault ≡ EngineFault.Read)) }
{
    match read_document(alloc, inquiry) {
        Ok(spec) => streams_outcome(rt, alloc, inquiry, spec, sources),
        Err(unanswered) => refused(unanswered),
    }
}
