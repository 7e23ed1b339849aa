//! A note, and the one that a line holds.
ghost use Rattle.serde_json.specs.Find.{as_number, as_str, as_u64, get};
ghost use Rattle.serde_json.specs.View.{view};
ghost use Rattle.std.specs.Option.{option_and_then, option_map};
ghost use Rattle.std.specs.Prelude.{◌≡◌};

use serde_json::{Category, Value};
use std::alloc::{AllocError, Global};

/// A note on an event.
#[derive(Drop)]
pub struct EventNote {
    /// The name of the event's process.
    pub process: String,
    /// The event's number, counted from 1.
    pub event: u64,
    /// What the program said of it; it may be empty.
    pub text: String,
    /// Where the event was recorded, as `FILE:LINE`; it is empty if that isn't known.
    pub place: String,
}

impl EventNote {
    /// Whether it says nothing: it has neither a text nor a place.
    pub fn is_empty(&self) -> bool {
        self.text.is_empty() && self.place.is_empty()
    }

    /// Whether it is one on this event.
    pub(crate) fn is_of(&self, process: &str, event: u64) -> bool {
        self.event == event && self.process.as_str() == process
    }
}

/// What a line holds that isn't blank.
#[derive(Drop)]
pub(crate) enum NoteLine {
    /// A note.
    Note(EventNote),
    /// None, and why.
    Wrong(&'static str),
}

/// The text at this field of a value, if it is an object that has such a field.
fn text_at<'a>(value: &'a Value, field: &str) -> Option<&'a str>
    ensures { option_map (λ text. text.now) result ≡ option_and_then as_str (get field.now (view value.now)) }
{
    value.get(field)?.as_str()
}

/// The whole number at this field of a value, if it is an object that has such a field.
fn number_at(value: &Value, field: &str) -> Option<u64>
    ensures { result ≡ option_and_then as_u64 (option_and_then as_number (get field.now (view value.now))) }
{
    value.get(field)?.as_u64()
}

/// Whether a clock is a number, or there is none.
fn may_be_clock(clock: Option<&Value>) -> bool {
    match clock {
        Some(clock) => clock.is_number() || clock.is_null(),
        None => true,
    }
}

/// The text of a place, which may be left out; nothing if it is another value.
fn place_in(value: &Value) -> Option<&str> {
    match value.get("place") {
        Some(place) => place.as_str(),
        None => Some(""),
    }
}

/// The note that a value is, or why it is none.
fn note_of(alloc: Global, value: &Value) -> Result<NoteLine, AllocError> {
    if !value.is_object() {
        return Ok(NoteLine::Wrong("it is no object of JSON"));
    }
    let Some(process) = text_at(value, "process") else {
        return Ok(NoteLine::Wrong("it names no process"));
    };
    let event = number_at(value, "event").unwrap_or(0);
    if event == 0 {
        return Ok(NoteLine::Wrong("it names no event"));
    }
    let Some(text) = text_at(value, "text") else {
        return Ok(NoteLine::Wrong("its text is none"));
    };
    let Some(place) = place_in(value) else {
        return Ok(NoteLine::Wrong("its place is no text"));
    };
    if !may_be_clock(value.get("clock")) {
        return Ok(NoteLine::Wrong("its clock is no number"));
    }
    Ok(NoteLine::Note(EventNote {
        process: String::from_str(alloc, process)?,
        event,
        text: String::from_str(alloc, text)?,
        place: String::from_str(alloc, place)?,
    }))
}

/// What a line holds.
///
/// # Errors
/// Out of memory.
pub(crate) fn note_in_line(alloc: Global, line: &[u8]) -> Result<NoteLine, AllocError> {
    match Value::from_slice(alloc, line) {
        Ok(value) => note_of(alloc, &value),
        Err(error) => {
            if matches!(error.classify(), Category::Memory) {
                return Err(AllocError);
            }
            Ok(NoteLine::Wrong("it is no object of JSON"))
        }
    }
}
