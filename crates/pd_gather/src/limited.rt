//! Reads a source up to a limit.
ghost use Rattle.std.specs.Prelude.{◌≡◌, ◌≢◌, ◌+◌, ◌≤◌, ◌<◌, ◌++◌, true, false, List, [], ℕ, Some, Err, length, take, IfOk, IfSome, IsOkUnless, OnErr, vec_len};
ghost use Rattle.def_judgement.specs.Writes.{FailsAfter};
ghost use Rattle.pd_gather.specs.declared.read_fault.ReadFault.{ReadFault};
ghost use Rattle.std.specs.Io.KnownBytes.{Consumes, IsAtEnd};

use super::byte_source::ByteSource;
use super::read_fault::ReadFault;
use std::alloc::{AllocError, Global};

/// How many bytes are asked for at a time.
const PIECE: usize = 65_536;

/// One read into the piece. What it gives goes after the bytes read so far. The result is how many bytes it gives: none
/// only at the source's end, or if the piece has no room.
fn read_piece<R: ByteSource>(
    reader: &mut R,
    piece: &mut [u8],
    bytes: &mut Vec<u8>,
) -> Result<usize, ReadFault>
    requires open { R.has_ended reader.old ≡ false }
    ensures within { IfOk result (λ count. count ≤ length piece.new) }
    ensures len { IfOk result (λ count. vec_len bytes.new ≡ vec_len bytes.old + count) }
    ensures more { IfOk result (λ count. (given : List ℕ) × (bytes.new.items ≡ bytes.old.items ++ given)
        × Consumes (R.left reader.old).bytes (R.left reader.new).bytes given) }
    ensures end { IfOk result (λ count. count ≡ 0 → 0 < length piece.new → IsAtEnd (R.left reader.new).bytes
        × ((R.left reader.old).fails ≢ Some true)) }
    ensures same { IfOk result (λ count. (count ≡ 0 → ⊥) → (R.left reader.new).fails ≡ (R.left reader.old).fails) }
    ensures open { IfOk result (λ count. (count ≡ 0 → ⊥) → R.has_ended reader.new ≡ false) }
    ensures cause { result ≡ Err ReadFault.Read → FailsAfter (R.left reader.old) (λ bytes. bytes ≡ []) }
{
    let count = reader.read_next(piece).map_err(|_| ReadFault::Read)?;
    bytes.extend_from_slice(&piece[..count])?;
    Ok(count)
}

/// Room for the bytes of one read, of which no more than this many are asked for.
fn new_limited_piece(alloc: Global, most: usize) -> Result<Vec<u8>, AllocError>
    ensures { IfOk result (λ piece. 0 < most → 0 < vec_len piece) }
{
    let size = PIECE.min(most);
    vec![in alloc; 0u8; size]
}

/// All bytes that the source gives, or its first `limit + 1` bytes if there are more: so the length says whether they
/// are more than the limit. No more bytes than these are asked for, in at most `limit + 1` reads, and nothing is read
/// after the source's end.
///
/// # Errors
/// `Read` if a read fails, of whatever kind, and `Memory`. The bytes read until then are dropped; they are no more than
/// the limit.
pub fn read_bytes<R: ByteSource + Drop>(
    alloc: Global,
    mut reader: R,
    limit: usize,
) -> Result<Vec<u8>, ReadFault>
    requires open { R.has_ended reader ≡ false }
    requires few { limit < 9223372036854775807 }
    ensures within { IfOk result (λ bytes. vec_len bytes ≤ limit + 1) }
    ensures prefix { IfOk result (λ bytes. IfSome (R.left reader).bytes (λ input.
        bytes.items ≡ take (limit + 1) input)) }
    ensures end { IfOk result (λ bytes. vec_len bytes ≤ limit → (R.left reader).fails ≢ Some true) }
    ensures cause { result ≡ Err ReadFault.Read → FailsAfter (R.left reader) (λ bytes. length bytes ≤ limit) }
{
    let most = limit + 1;
    let mut piece = new_limited_piece(alloc, most)?;
    let mut bytes = Vec::new(alloc);
    'reads: while bytes.len() < most {
        let asked = piece.len().min(most - bytes.len());
        let count = read_piece(&mut reader, &mut piece[..asked], &mut bytes)?;
        if count == 0 {
            return Ok(bytes);
        }
    }
    Ok(bytes)
}

/// The bytes again, if they are no more than the limit.
///
/// # Errors
/// This fault, if they are more.
pub fn within_limit<F: Drop>(bytes: Vec<u8>, limit: usize, fault: F) -> Result<Vec<u8>, F>
    ensures ok { IfOk result (λ kept. (kept ≡ bytes) × (vec_len bytes ≤ limit)) }
    ensures long { OnErr result (limit < vec_len bytes) }
    ensures err { IsOkUnless result fault }
{
    if bytes.len() > limit {
        return Err(fault);
    }
    Ok(bytes)
}
