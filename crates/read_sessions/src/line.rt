//! Reads a line.
ghost use Rattle.def_format.specs.Documents.{each, field};
ghost use Rattle.def_format.specs.Records.{json_value};
ghost use Rattle.read_sessions.specs.SessionLines.{id_by, line_by, line_of_fields, line_of_json, session_by, texts_of};
ghost use Rattle.read_sessions.specs.Views.{line_view, name_view};
ghost use Rattle.serde_json.specs.Find.{as_str};
ghost use Rattle.serde_json.specs.View.{items_view, members_view, view};
ghost use Rattle.std.specs.Prelude.{◌≡◌, IfOk, codes, map, option_map, string_bytes};

use super::session::{Session, SessionLine};
use pd_spec::{json_value, value_at};
use serde_json::{Map, Value};
use std::alloc::{AllocError, Global};

/// A copy of the text that a value is, if it is one.
fn text_in(alloc: Global, value: &Value) -> Result<Option<String>, AllocError>
    ensures { IfOk result (λ found. name_view found ≡ as_str (view value.now)) }
{
    match value.as_str() {
        Some(text) => Ok(Some(String::from_str(alloc, text)?)),
        None => Ok(None),
    }
}

/// A copy of the text that stands at this field, if one does.
fn text_at(
    alloc: Global,
    fields: &Map<String, Value>,
    name: &str,
) -> Result<Option<String>, AllocError>
    ensures { IfOk result (λ found. name_view found ≡ field name.now as_str (members_view fields.now.entries)) }
{
    match value_at(fields, name) {
        Some(value) => text_in(alloc, value),
        None => Ok(None),
    }
}

/// Copies of the texts that these values are, if each is one.
fn texts_in(alloc: Global, items: &[Value]) -> Result<Option<Vec<String>>, AllocError>
    ensures { IfOk result (λ found. option_map (λ texts. map string_bytes texts.items) found
        ≡ each as_str (items_view items.now)) }
{
    let mut texts = Vec::with_capacity(alloc, items.len())?;
    for item in items {
        match text_in(alloc, item)? {
            Some(text) => texts.push(text)?,
            None => return Ok(None),
        }
    }
    Ok(Some(texts))
}

/// Copies of the texts of the array that stands at this field, if one does.
fn texts_at(
    alloc: Global,
    fields: &Map<String, Value>,
    name: &str,
) -> Result<Option<Vec<String>>, AllocError>
    ensures { IfOk result (λ found. option_map (λ texts. map string_bytes texts.items) found
        ≡ field name.now texts_of (members_view fields.now.entries)) }
{
    let Some(value) = value_at(fields, name) else {
        return Ok(None);
    };
    let Some(items) = value.as_array() else {
        return Ok(None);
    };
    texts_in(alloc, items)
}

/// The name, if there is one, unless the field is no text.
fn id_in(alloc: Global, value: Option<&Value>) -> Result<Option<Option<String>>, AllocError>
    ensures { IfOk result (λ found. option_map name_view found
        ≡ id_by (option_map (λ value. view value.now) value.entry)) }
{
    let Some(value) = value else {
        return Ok(Some(None));
    };
    match text_in(alloc, value)? {
        Some(text) => Ok(Some(Some(text))),
        None => Ok(None),
    }
}

/// The session of this name that stands in the fields.
fn session_in(
    alloc: Global,
    id: Option<String>,
    fields: &Map<String, Value>,
) -> Result<SessionLine, AllocError>
    ensures { IfOk result (λ line. line_view line ≡ session_by (name_view id)
        (field (codes "document") as_str (members_view fields.now.entries))
        (field (codes "streams") texts_of (members_view fields.now.entries))) }
{
    let Some(document) = text_at(alloc, fields, "document")? else {
        return Ok(SessionLine::NoSession);
    };
    let Some(streams) = texts_at(alloc, fields, "streams")? else {
        return Ok(SessionLine::NoSession);
    };
    Ok(SessionLine::Holds(Session {
        id,
        document,
        streams,
    }))
}

/// What the fields of a line's object say.
fn line_of_fields(alloc: Global, fields: &Map<String, Value>) -> Result<SessionLine, AllocError>
    ensures { IfOk result (λ line. line_view line ≡ line_of_fields (members_view fields.now.entries)) }
{
    let Some(id) = id_in(alloc, value_at(fields, "id"))? else {
        return Ok(SessionLine::NoSession);
    };
    match text_at(alloc, fields, "error")? {
        Some(error) => Ok(SessionLine::Tells(id, error)),
        None => session_in(alloc, id, fields),
    }
}

/// What a line says, which ends before its LF, but for whether it is too long.
///
/// # Errors
/// Out of memory.
pub fn read_session_line(alloc: Global, bytes: &[u8]) -> Result<SessionLine, AllocError>
    ensures { IfOk result (λ line. line_view line ≡ line_of_json (json_value bytes.now)) }
{
    let Some(value) = json_value(alloc, bytes)? else {
        return Ok(SessionLine::NoJson);
    };
    match value.as_object() {
        Some(fields) => line_of_fields(alloc, fields),
        None => Ok(SessionLine::NoSession),
    }
}
