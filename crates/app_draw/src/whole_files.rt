//! Reads files whole, up to a limit.
ghost use Rattle.app_draw.specs.Drawings.{IsSurelyRead};
ghost use Rattle.def_format.specs.Limits.{report_byte_limit, stream_byte_limit};
ghost use Rattle.def_judgement.specs.Writes.{IsWholeInput, whole_source};
ghost use Rattle.std.specs.List.{AllZip};
ghost use Rattle.std.specs.Prelude.{◌≡◌, ◌≤◌, ◌⊎◌, All, Err, IfErr, IfOk, false, map, vec_len};

use def_format::STREAM_BYTE_LIMIT;
use judge_session::{EngineFault, read_upto};
use pd_engine::{ByteSource, within_limit};
use pd_gather::WholeBytes;
use std::alloc::{AllocError, Global};

/// All bytes that a source has left, which are at most this many. The limit is at most `REPORT_BYTE_LIMIT`.
///
/// # Errors
/// `Read`, if a read fails or there are more, and `Memory`.
pub(crate) fn read_whole<R: ByteSource + Drop>(
    alloc: Global,
    source: R,
    limit: usize,
) -> Result<Vec<u8>, EngineFault>
    requires open { R.has_ended source ≡ false }
    requires few { limit ≤ report_byte_limit }
    ensures read { IfOk result (λ bytes. IsWholeInput (R.left source) bytes.items) }
    ensures fits { IfOk result (λ bytes. vec_len bytes ≤ limit) }
    ensures unread { result ≡ Err EngineFault.Read → ¬ IsSurelyRead limit (R.left source) }
    ensures err { IfErr result (λ fault. (fault ≡ EngineFault.Memory) ⊎ (fault ≡ EngineFault.Read)) }
{
    let bytes = read_upto(alloc, source, limit)?;
    within_limit(bytes, limit, EngineFault::Read)
}

/// All bytes that each of these streams has left.
///
/// # Errors
/// `Read`, if a read fails or a stream has more than `STREAM_BYTE_LIMIT` bytes, and `Memory`.
pub(crate) fn whole_streams<R: ByteSource + Drop>(
    alloc: Global,
    streams: Vec<R>,
) -> Result<Vec<Vec<u8>>, EngineFault>
    requires { All (λ stream. R.has_ended stream ≡ false) streams.items }
    ensures read { IfOk result (λ read. AllZip IsWholeInput (map R.left streams.items)
        (map (λ bytes. bytes.items) read.items)) }
    ensures unread { result ≡ Err EngineFault.Read
        → ¬ All (IsSurelyRead stream_byte_limit) (map R.left streams.items) }
    ensures err { IfErr result (λ fault. (fault ≡ EngineFault.Memory) ⊎ (fault ≡ EngineFault.Read)) }
{
    let count = streams.len();
    let mut rest = streams;
    let mut read = Vec::new(alloc);
    for _place in 0..count {
        match read_whole(alloc, rest.remove(0), STREAM_BYTE_LIMIT as usize) {
            Ok(bytes) => read.push(bytes)?,
            Err(fault) => return Err(fault),
        }
    }
    Ok(read)
}

/// A reader of the bytes of each stream.
///
/// # Errors
/// Out of memory.
pub(crate) fn readers_of<'a>(
    alloc: Global,
    streams: &'a [Vec<u8>],
) -> Result<Vec<WholeBytes<'a>>, AllocError>
    ensures { IfOk result (λ readers. map (λ reader. whole_source reader.rest.now) readers.items
        ≡ map (λ bytes. whole_source bytes.items) streams.now) }
{
    let mut readers = Vec::new(alloc);
    for bytes in streams {
        readers.push(WholeBytes::new(bytes))?;
    }
    Ok(readers)
}
