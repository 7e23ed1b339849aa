//! The line of a session, or of one that can't be read.
ghost use Rattle.out_lines.specs.Lines.{line_text, session_data, unread_data};
ghost use Rattle.serde_json.specs.Data.{string};
ghost use Rattle.serde_json.specs.View.{view};
ghost use Rattle.std.specs.Prelude.{◌≡◌, IfOk, map, string_bytes};

use super::line::line_of;
use serde_json::{Value, json};
use std::alloc::{AllocError, Global};

/// The texts of streams, as JSON values.
fn stream_values(alloc: Global, streams: &[String]) -> Result<Vec<Value>, AllocError>
    ensures { IfOk result (λ values. map view values.items
        ≡ map (λ stream. string stream) (map string_bytes streams.now)) }
{
    let mut values = Vec::with_capacity(alloc, streams.len())?;
    for stream in streams {
        values.push(Value::String(stream.clone()?))?;
    }
    Ok(values)
}

/// A session of this name.
fn session_value(
    alloc: Global,
    id: &str,
    document: &str,
    streams: &[String],
) -> Result<Value, AllocError>
    ensures { IfOk result (λ value. view value ≡ session_data id.now document.now (map string_bytes streams.now)) }
{
    let streams = stream_values(alloc, streams)?;
    json!(in alloc; {"document": document, "id": id, "streams": streams})
}

/// The line of a session of this name: its document and its streams, in their order.
///
/// # Errors
/// Out of memory.
pub fn session_line(
    alloc: Global,
    id: &str,
    document: &str,
    streams: &[String],
) -> Result<Vec<u8>, AllocError>
    ensures { IfOk result (λ line. line.items
        ≡ line_text (session_data id.now document.now (map string_bytes streams.now))) }
{
    let value = session_value(alloc, id, document, streams)?;
    line_of(alloc, &value)
}

/// Why there is no session of this name.
fn unread_value(alloc: Global, id: &str, error: &str) -> Result<Value, AllocError>
    ensures { IfOk result (λ value. view value ≡ unread_data id.now error.now) }
{
    json!(in alloc; {"error": error, "id": id})
}

/// The line that says why there is no session of this name.
///
/// # Errors
/// Out of memory.
pub fn unread_line(alloc: Global, id: &str, error: &str) -> Result<Vec<u8>, AllocError>
    ensures { IfOk result (λ line. line.items ≡ line_text (unread_data id.now error.now)) }
{
    let value = unread_value(alloc, id, error)?;
    line_of(alloc, &value)
}
