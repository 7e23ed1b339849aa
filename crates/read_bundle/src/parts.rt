//! Reads the parts of a bundle, one after another.
ghost use Rattle.read_bundle.specs.PartsRead.{HasReadPart, HasReadStreams, IsKept, IsResultOfPart};
ghost use Rattle.read_bundle.specs.Steps.{AreParts, HasCut, HasParts};
ghost use Rattle.read_bundle.specs.declared.fault.BundleFault.TheVariants as faults;
ghost use Rattle.pd_events.specs.Reads.{Reads};
ghost use Rattle.pd_events.specs.Views.{result_view};
ghost use Rattle.def_format.specs.Names.{ProcessNames};
ghost use Rattle.def_format.specs.Readings.{Open};
ghost use Rattle.pd_gather.specs.Views.{ReadingFits, results_view};
ghost use Rattle.def_judgement.specs.Writes.{IsBrokenOff, IsTooLong, Source};
ghost use Rattle.pd_spec.specs.Views.{document_view};
ghost use Rattle.std.specs.Prelude.{◌≡◌, ◌<◌, ◌++◌, All, Err, IfOk, List, ℕ, OnOk, Option, [], false, length, true};

use super::{Bundle, BundleFault};
use def_format::{DOCUMENT_BYTE_LIMIT, STREAM_COUNT_LIMIT};
use pd_events::{StreamFault, TraceReader};
use pd_gather::{ByteSource, Gathered};
use pd_spec::Spec;
use read_traces::Trace;
use std::alloc::{AllocError, Global};

/// Adds the bytes to those of a document, unless these are too many already.
fn keep(document: &mut Vec<u8>, bytes: &[u8]) -> Result<(), AllocError>
    ensures { OnOk result ((part : List ℕ) → IsKept document.old.items part
        → IsKept document.new.items (part ++ bytes.now)) }
{
    if document.len() > DOCUMENT_BYTE_LIMIT {
        return Ok(());
    }
    document.extend_from_slice(bytes)
}

/// Adds the bytes that the last step gave.
fn keep_given(document: &mut Vec<u8>, bundle: &Bundle) -> Result<(), AllocError>
    ensures { OnOk result ((part : List ℕ) → IsKept document.old.items part
        → IsKept document.new.items (part ++ bundle.now.given)) }
{
    let (held, run) = bundle.given();
    keep(document, held)?;
    keep(document, run)
}

/// Feeds the stream what the last step gave.
fn feed_given(stream: &mut TraceReader<'_>, bundle: &Bundle) -> Result<(), AllocError>
    ensures { OnOk result ((names : List ProcessNames) (bytes : List ℕ) → Reads stream.old names Open bytes
        → Reads stream.new names Open (bytes ++ bundle.now.given)) }
{
    let (held, run) = bundle.given();
    stream.feed(held)?;
    stream.feed(run)
}

/// Reads the first part, and gives its bytes, of which no more than one piece is kept over a document's limit, and
/// whether another part begins.
///
/// # Errors
/// As `Bundle::next`, and `Memory`. The bundle and its reader aren't used again then.
pub fn read_document_part<R: ByteSource>(
    alloc: Global,
    reader: &mut R,
    bundle: &mut Bundle,
) -> Result<(Vec<u8>, bool), BundleFault>
    requires ready { bundle.old.ended ≡ false → R.has_ended reader.old ≡ false }
    ensures part { IfOk result (λ given. HasReadPart (IsKept given.0.items) (R.left reader.old)
        (R.left reader.new) bundle.old bundle.new given.1) }
    ensures ready { OnOk result (bundle.new.ended ≡ false → R.has_ended reader.new ≡ false) }
    ensures long { result ≡ Err faults.Long → (input : Source) (closed : List (List ℕ)) →
        HasCut input (R.left reader.old) closed [] bundle.old → IsTooLong input }
    ensures cause { result ≡ Err faults.Read → (input : Source) (closed : List (List ℕ)) →
        HasCut input (R.left reader.old) closed [] bundle.old → IsBrokenOff input }
{
    let mut document = Vec::new(alloc);
    let mut next = bundle.next(reader)?;
    'steps: while next.is_bytes() {
        keep_given(&mut document, bundle)?;
        next = bundle.next(reader)?;
    }
    Ok((document, next.begins_part()))
}

/// Reads a part that is a stream, and gives its trace or its fault, and whether another part begins.
///
/// # Errors
/// As `Bundle::next`, and `Memory`.
fn read_stream_part<R: ByteSource>(
    alloc: Global,
    spec: &Spec,
    reader: &mut R,
    bundle: &mut Bundle,
) -> Result<(Result<Trace, StreamFault>, bool), BundleFault>
    requires ready { bundle.old.ended ≡ false → R.has_ended reader.old ≡ false }
    ensures part { IfOk result (λ given. HasReadPart (IsResultOfPart (document_view spec.now).names
        (result_view given.0)) (R.left reader.old) (R.left reader.new) bundle.old bundle.new given.1) }
    ensures fits { IfOk result (λ given. ReadingFits (document_view spec.now).names given.0) }
    ensures ready { OnOk result (bundle.new.ended ≡ false → R.has_ended reader.new ≡ false) }
    ensures long { result ≡ Err faults.Long → (input : Source) (closed : List (List ℕ)) →
        HasCut input (R.left reader.old) closed [] bundle.old → IsTooLong input }
    ensures cause { result ≡ Err faults.Read → (input : Source) (closed : List (List ℕ)) →
        HasCut input (R.left reader.old) closed [] bundle.old → IsBrokenOff input }
{
    let mut stream = TraceReader::new(alloc, spec);
    let mut next = bundle.next(reader)?;
    'steps: while next.is_bytes() {
        feed_given(&mut stream, bundle)?;
        next = bundle.next(reader)?;
    }
    stream.end()?;
    Ok((stream.outcome(), next.begins_part()))
}

/// Reads the parts that are left, of which one has begun, and keeps nothing of them. It takes no memory.
///
/// # Errors
/// As `Bundle::next`.
pub fn skip_parts<R: ByteSource>(reader: &mut R, bundle: &mut Bundle) -> Result<(), BundleFault>
    requires ready { bundle.old.ended ≡ false → R.has_ended reader.old ≡ false }
    ensures parts { OnOk result ((input : Source) (closed : List (List ℕ)) →
        HasCut input (R.left reader.old) closed [] bundle.old → (parts : List (List ℕ)) × (0 < length parts)
        × AreParts input (closed ++ parts)) }
    ensures long { result ≡ Err faults.Long → (input : Source) (closed : List (List ℕ)) →
        HasCut input (R.left reader.old) closed [] bundle.old → IsTooLong input }
    ensures cause { result ≡ Err faults.Read → (input : Source) (closed : List (List ℕ)) →
        HasCut input (R.left reader.old) closed [] bundle.old → IsBrokenOff input }
    ensures roomy { result ≡ Err faults.Memory → ⊥ }
{
    let mut next = bundle.next(reader)?;
    'steps: while !next.is_end() {
        next = bundle.next(reader)?;
    }
    Ok(())
}

/// Reads the parts that are left as streams, one after another. If they are too many, nothing of them is kept.
///
/// # Errors
/// As `Bundle::next`, and `Memory`. The bundle and its reader aren't used again then.
pub fn read_stream_parts<R: ByteSource>(
    alloc: Global,
    spec: &Spec,
    reader: &mut R,
    bundle: &mut Bundle,
    begins: bool,
) -> Result<Gathered, BundleFault>
    requires ready { bundle.old.ended ≡ false → R.has_ended reader.old ≡ false }
    ensures read { IfOk result (λ gathered. HasReadStreams (document_view spec.now).names (R.left reader.old)
        bundle.old begins gathered.streams (results_view gathered.readings.items)) }
    ensures fit { IfOk result (λ gathered. All (ReadingFits (document_view spec.now).names) gathered.readings.items) }
    ensures long { result ≡ Err faults.Long → (input : Source) (closed : List (List ℕ)) →
        HasParts begins input (R.left reader.old) closed bundle.old → IsTooLong input }
    ensures cause { result ≡ Err faults.Read → (input : Source) (closed : List (List ℕ)) →
        HasParts begins input (R.left reader.old) closed bundle.old → IsBrokenOff input }
{
    let mut readings = Vec::new(alloc);
    let mut begins = begins;
    'streams: while begins && readings.len() < STREAM_COUNT_LIMIT {
        let (reading, others) = read_stream_part(alloc, spec, reader, bundle)?;
        readings.push(reading)?;
        begins = others;
    }
    if begins {
        skip_parts(reader, bundle)?;
        return Ok(Gathered {
            streams: STREAM_COUNT_LIMIT as u64 + 1,
            readings: Vec::new(alloc),
        });
    }
    Ok(Gathered {
        streams: readings.len() as u64,
        readings,
    })
}
