//! Reads a bundle.
ghost use Rattle.def_format.specs.Limits.{bundle_byte_limit};
ghost use Rattle.read_sessions.specs.SessionLines as lines;
ghost use Rattle.read_sessions.specs.SessionLines.{session_bundle};
ghost use Rattle.read_sessions.specs.Views.{line_view};
ghost use Rattle.std.specs.Prelude.{◌≡◌, ◌<◌, IfOk, List, Some, decimal, length, string_bytes, ℕ};

use super::session::{Session, SessionLine};
use def_format::BUNDLE_BYTE_LIMIT;
use itoa::Buffer;
use read_parts::part_texts;
use std::alloc::{AllocError, Global};

/// The name of the bundle of this number.
fn number_name(alloc: Global, number: u64) -> Result<String, AllocError>
    ensures { IfOk result (λ name. string_bytes name ≡ decimal number) }
{
    String::from_str(alloc, Buffer::new().format(number))
}

/// What is said of the bundle of this number in place of a session.
fn no_session(alloc: Global, number: u64, error: &str) -> Result<SessionLine, AllocError>
    ensures { IfOk result (λ line. line_view line ≡ lines.Tells (Some (decimal number)) error.now) }
{
    let name = number_name(alloc, number)?;
    Ok(SessionLine::Tells(Some(name), String::from_str(alloc, error)?))
}

/// What a bundle of this number says that has more bytes than it may.
///
/// # Errors
/// Out of memory.
pub fn long_bundle(alloc: Global, number: u64) -> Result<SessionLine, AllocError>
    ensures { IfOk result (λ line. (bytes : List ℕ) → bundle_byte_limit < length bytes
        → line_view line ≡ session_bundle number bytes) }
{
    no_session(alloc, number, "over 67108864 bytes")
}

/// What the bundle of this number says.
///
/// # Errors
/// Out of memory.
pub fn read_session_bundle(
    alloc: Global,
    number: u64,
    bytes: &[u8],
) -> Result<SessionLine, AllocError>
    ensures { IfOk result (λ line. line_view line ≡ session_bundle number bytes.now) }
{
    if bytes.len() > BUNDLE_BYTE_LIMIT {
        return long_bundle(alloc, number);
    }
    let Some(mut streams) = part_texts(alloc, bytes)? else {
        return no_session(alloc, number, "no UTF-8");
    };
    let document = streams.remove(0);
    Ok(SessionLine::Holds(Session {
        id: Some(number_name(alloc, number)?),
        document,
        streams,
    }))
}
