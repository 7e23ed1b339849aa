//! How much room texts are given.
ghost use Rattle.out_picture.specs.Pictures.{shown_value, texts_view};
ghost use Rattle.out_picture.specs.Rooms.{byte_room, names_room, text_room, title_room, values_room, widest_room};
ghost use Rattle.std.specs.Prelude.{◌≡◌, ◌≤◌, IfOk, map};

use super::texts::shown_value;
use std::alloc::{AllocError, Global};

/// The room of a byte of a text, in twentieths of the height of its type.
fn byte_room(byte: u8) -> u16
    ensures { result ≡ byte_room byte }
{
    match byte {
        b'M' | b'W' | b'm' | b'w' => 23,
        b'A'..=b'Z' => 18,
        _ => 15,
    }
}

/// The room of a text, in twentieths of the height of its type.
fn text_room(text: &str) -> u16
    ensures { result ≡ text_room text.now }
{
    let mut room: u16 = 0;
    for byte in text.as_bytes() {
        room = room.saturating_add(byte_room(*byte));
    }
    room
}

/// The greatest of the rooms of texts.
fn widest_room(texts: &[String]) -> u16
    ensures { result ≡ widest_room (texts_view texts.now) }
{
    let mut widest: u16 = 0;
    for text in texts {
        widest = widest.max(text_room(text.as_str()));
    }
    widest
}

/// The room of the names of processes, in type of height 15.
pub(crate) fn names_room(names: &[String]) -> u32
    ensures { result ≡ names_room (texts_view names.now) }
{
    u32::from(widest_room(names)) * 3 / 4
}

/// The room of a title, in type of height 18.
pub(crate) fn title_room(title: &str) -> u32
    ensures is { result ≡ title_room title.now }
    ensures small { result ≤ 60000 }
{
    u32::from(text_room(title)) * 9 / 10
}

/// The greatest of the rooms of what is shown of values.
fn widest_value(alloc: Global, values: &[String]) -> Result<u16, AllocError>
    ensures { IfOk result (λ room. room ≡ widest_room (map shown_value (texts_view values.now))) }
{
    let mut widest: u16 = 0;
    for value in values {
        let shown = shown_value(alloc, value.as_str())?;
        widest = widest.max(text_room(shown.as_str()));
    }
    Ok(widest)
}

/// The room of what is shown of the values at a cut, and of the words above them, in type of height 13.
///
/// # Errors
/// Out of memory.
pub(crate) fn values_room(alloc: Global, values: &[String]) -> Result<u32, AllocError>
    ensures is { IfOk result (λ room. room ≡ values_room (map shown_value (texts_view values.now))) }
    ensures small { IfOk result (λ room. room ≤ 60000) }
{
    let widest = u32::from(widest_value(alloc, values)?) * 13 / 20;
    Ok(widest.max(80))
}
