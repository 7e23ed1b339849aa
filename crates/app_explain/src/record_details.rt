//! Finds the part of a stream's line that is at fault.
use super::json_faults::json_place;
use super::words::StreamWord;
use app_text::place_of_name;
use def_format::LINE_BYTE_LIMIT;
use pd_pred::Names;
use serde_json::{Map, Value};
use std::alloc::{AllocError, Global};

/// The fields that lines may have.
pub(crate) const FIELDS: [&str; 5] = ["process", "end", "set", "send", "recv"];

/// The first field that a line may not have.
fn other_field(fields: &Map<String, Value>) -> Option<&str> {
    for key in fields.keys() {
        if !FIELDS.iter().any(|name| key.as_str() == *name) {
            return Some(key.as_str());
        }
    }
    None
}

/// The field of a line by which it hasn't the form of one.
fn misshapen_field(fields: &Map<String, Value>) -> Option<&str> {
    if let Some(other) = other_field(fields) {
        return Some(other);
    }
    if fields.contains_key("process") {
        return Some("process");
    }
    if fields.contains_key("end") {
        return Some("end");
    }
    match fields.get("set") {
        None | Some(Value::Object(_)) => {}
        Some(_) => return Some("set"),
    }
    match fields.get("send") {
        None | Some(Value::String(_)) => {}
        Some(_) => return Some("send"),
    }
    if fields.contains_key("recv") {
        return Some("recv");
    }
    None
}

/// What a line sets.
fn settings(fields: &Map<String, Value>) -> Option<&Map<String, Value>> {
    match fields.get("set") {
        Some(Value::Object(settings)) => Some(settings),
        _ => None,
    }
}

/// Whether a process has a variable of this name; none if there is no such process.
fn has_var(names: &Names, process: usize, name: &str) -> bool {
    process < names.processes() && names.find_var(process, name).is_some()
}

/// The first variable that a line sets and that the process doesn't have.
fn unknown_var<'a>(
    names: &Names,
    process: Option<usize>,
    fields: &'a Map<String, Value>,
) -> Option<&'a str> {
    let process = process?;
    for key in settings(fields)?.keys() {
        if !has_var(names, process, key.as_str()) {
            return Some(key.as_str());
        }
    }
    None
}

/// The first variable that a line sets to what isn't a whole number.
fn broken_var(fields: &Map<String, Value>) -> Option<&str> {
    for (key, value) in settings(fields)?.iter() {
        if value.as_i64().is_none() {
            return Some(key.as_str());
        }
    }
    None
}

/// The field with a message's id.
fn id_field(fields: &Map<String, Value>) -> Option<&'static str> {
    if fields.contains_key("send") {
        return Some("send");
    }
    if fields.contains_key("recv") {
        return Some("recv");
    }
    None
}

/// The text of a field.
fn text_of<'a>(fields: &'a Map<String, Value>, name: &str) -> Option<&'a str> {
    match fields.get(name) {
        Some(Value::String(text)) => Some(text.as_str()),
        _ => None,
    }
}

/// The name or field of a line with these fields that has the fault of this word.
fn name_at_fault<'a>(
    names: &Names,
    process: Option<usize>,
    fields: &'a Map<String, Value>,
    word: StreamWord,
) -> Option<&'a str> {
    match word {
        StreamWord::Shape => misshapen_field(fields),
        StreamWord::UnknownProcess => text_of(fields, "process"),
        StreamWord::UnknownVar => unknown_var(names, process, fields),
        StreamWord::Value => broken_var(fields),
        StreamWord::MessageId => id_field(fields),
        StreamWord::LineTooLong
        | StreamWord::StreamTooLong
        | StreamWord::Json
        | StreamWord::Join
        | StreamWord::Events
        | StreamWord::RunEvents
        | StreamWord::Unended
        | StreamWord::Read
        | StreamWord::Taken => None,
    }
}

/// The place of a line that has the fault of this word, if that is sure. The line is one of this process, which is
/// counted from 0.
///
/// # Errors
/// Out of memory.
pub(crate) fn place_in_record(
    alloc: Global,
    names: &Names,
    process: Option<usize>,
    line: &[u8],
    word: StreamWord,
) -> Result<Option<usize>, AllocError> {
    if word == StreamWord::LineTooLong {
        return Ok(Some(LINE_BYTE_LIMIT));
    }
    if word == StreamWord::Json {
        return Ok(json_place(alloc, line)?.map(|found| found.place));
    }
    let Ok(value) = Value::from_slice(alloc, line) else {
        return Ok(None);
    };
    let Some(fields) = value.as_object() else {
        return Ok(None);
    };
    match name_at_fault(names, process, fields, word) {
        Some(name) => Ok(place_of_name(line, name)),
        None => Ok(None),
    }
}

/// The name or field of a line that has the fault of this word, if it has one. The line is one of this process, which
/// is counted from 0.
///
/// # Errors
/// Out of memory.
pub(crate) fn name_in_record(
    alloc: Global,
    names: &Names,
    process: Option<usize>,
    line: &[u8],
    word: StreamWord,
) -> Result<Option<String>, AllocError> {
    let Ok(value) = Value::from_slice(alloc, line) else {
        return Ok(None);
    };
    let Some(fields) = value.as_object() else {
        return Ok(None);
    };
    match name_at_fault(names, process, fields, word) {
        Some(name) => Ok(Some(String::from_str(alloc, name)?)),
        None => Ok(None),
    }
}
