//! Reads recorded streams.
ghost use Rattle.app_reduce.specs.Outcomes.{ComesTo};
ghost use Rattle.def_judgement.specs.Writes.{IsWholeInput, Source};
ghost use Rattle.def_recordings.specs.Recordings.{recorded_event_limit};
ghost use Rattle.pd_events.specs.Views.{result_view};
ghost use Rattle.pd_gather.specs.Views.{ReadingFitsWithin, results_view};
ghost use Rattle.pd_spec.specs.Views.{document_view};
ghost use Rattle.std.specs.List.{AllZip};
ghost use Rattle.std.specs.Prelude.{◌≡◌, ◌≢◌, ◌⊎◌, All, Err, IfErr, IfOk, Some, false, length, map};

use judge_session::{EngineFault, read_upto};
use pd_events::StreamFault;
use pd_gather::{ByteSource, Gathered, within_limit};
use pd_spec::Spec;
use read_recordings::recorded_stream;
use read_traces::Trace;
use std::alloc::Global;

/// More bytes than any memory has.
const LIMIT: usize = 4_611_686_018_427_387_904;

/// All bytes that a source has left.
///
/// # Errors
/// `Read`, if a read fails, and `Memory`.
fn read_whole<R: ByteSource + Drop>(alloc: Global, source: R) -> Result<Vec<u8>, EngineFault>
    requires { R.has_ended source ≡ false }
    ensures read { IfOk result (λ bytes. IsWholeInput (R.left source) bytes.items) }
    ensures unread { result ≡ Err EngineFault.Read → (R.left source).fails ≢ Some false }
    ensures err { IfErr result (λ fault. (fault ≡ EngineFault.Memory) ⊎ (fault ≡ EngineFault.Read)) }
{
    let bytes = read_upto(alloc, source, LIMIT)?;
    within_limit(bytes, LIMIT, EngineFault::Memory)
}

/// What the stream comes to that a source has left. Its bytes are dropped.
///
/// # Errors
/// `Read`, if a read fails, and `Memory`.
fn read_recorded<R: ByteSource + Drop>(
    alloc: Global,
    spec: &Spec,
    source: R,
) -> Result<Result<Trace, StreamFault>, EngineFault>
    requires { R.has_ended source ≡ false }
    ensures given { IfOk result (λ given. ComesTo (document_view spec.now).names (R.left source)
        (result_view given)) }
    ensures fits { IfOk result (ReadingFitsWithin recorded_event_limit (document_view spec.now).names) }
    ensures unread { result ≡ Err EngineFault.Read → (R.left source).fails ≢ Some false }
    ensures err { IfErr result (λ fault. (fault ≡ EngineFault.Memory) ⊎ (fault ≡ EngineFault.Read)) }
{
    let bytes = read_whole(alloc, source)?;
    let given = recorded_stream(alloc, spec, &bytes)?;
    Ok(given)
}

/// What the streams of these sources come to, each of which is read whole before the next one.
///
/// # Errors
/// `Read`, if a read fails, and `Memory`.
pub(crate) fn read_streams<R: ByteSource + Drop>(
    alloc: Global,
    spec: &Spec,
    sources: Vec<R>,
) -> Result<Gathered, EngineFault>
    requires { All (λ source. R.has_ended source ≡ false) sources.items }
    ensures count { IfOk result (λ gathered. gathered.streams ≡ length sources.items) }
    ensures given { IfOk result (λ gathered. AllZip (ComesTo (document_view spec.now).names)
        (map R.left sources.items) (results_view gathered.readings.items)) }
    ensures fits { IfOk result (λ gathered. All (ReadingFitsWithin recorded_event_limit
        (document_view spec.now).names) gathered.readings.items) }
    ensures unread { result ≡ Err EngineFault.Read
        → ¬ All (λ (source : Source). source.fails ≡ Some false) (map R.left sources.items) }
    ensures err { IfErr result (λ fault. (fault ≡ EngineFault.Memory) ⊎ (fault ≡ EngineFault.Read)) }
{
    let count = sources.len();
    let mut rest = sources;
    let mut readings = Vec::new(alloc);
    for _place in 0..count {
        match read_recorded(alloc, spec, rest.remove(0)) {
            Ok(given) => readings.push(given)?,
            Err(fault) => return Err(fault),
        }
    }
    Ok(Gathered {
        streams: count as u64,
        readings,
    })
}
