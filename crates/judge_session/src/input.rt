//! Reads a source up to a limit.
ghost use Rattle.def_judgement.specs.Writes.{FailsAfter};
ghost use Rattle.std.specs.Prelude.{◌≡◌, ◌≢◌, ◌+◌, ◌<◌, ◌≤◌, ◌⊎◌, Err, IfErr, IfOk, IfSome, Some, false, length, take, true, vec_len};

use super::EngineFault;
use pd_gather::{ByteSource, read_bytes};
use std::alloc::Global;

/// All bytes that the source gives, or its first `limit + 1` bytes if there are more: so the length says whether they
/// are more than the limit. The limit is below 2^63 - 1. No more bytes than these are asked for, in at most
/// `limit + 1` reads, and nothing is read after the source's end.
///
/// # Errors
/// `Read` if a read fails, of whatever kind, and `Memory`. The bytes read until then are dropped.
pub fn read_upto<R: ByteSource + Drop>(
    alloc: Global,
    reader: R,
    limit: usize,
) -> Result<Vec<u8>, EngineFault>
    requires open { R.has_ended reader ≡ false }
    requires few { limit < 9223372036854775807 }
    ensures within { IfOk result (λ bytes. vec_len bytes ≤ limit + 1) }
    ensures prefix { IfOk result (λ bytes. IfSome (R.left reader).bytes (λ input.
        bytes.items ≡ take (limit + 1) input)) }
    ensures end { IfOk result (λ bytes. vec_len bytes ≤ limit → (R.left reader).fails ≢ Some true) }
    ensures cause { result ≡ Err EngineFault.Read → FailsAfter (R.left reader) (λ bytes. length bytes ≤ limit) }
    ensures err { IfErr result (λ fault. (fault ≡ EngineFault.Memory) ⊎ (fault ≡ EngineFault.Read)) }
{
    Ok(read_bytes(alloc, reader, limit)?)
}
