//! Where bytes stop being a JSON text.
use serde_json::{Error, Value};
use std::alloc::{AllocError, Global};

/// Where a fault of JSON stands: the number of its line, counted from 1, and the place in that line, counted from 0.
#[derive(Clone, Copy)]
pub(crate) struct JsonPlace {
    pub(crate) line: u64,
    pub(crate) place: usize,
    /// Whether the bytes end too soon.
    pub(crate) at_end: bool,
}

/// Where the bytes stop being a JSON text, if they are none.
///
/// # Errors
/// Out of memory.
pub(crate) fn json_place(alloc: Global, bytes: &[u8]) -> Result<Option<JsonPlace>, AllocError> {
    match Value::from_slice(alloc, bytes) {
        Ok(_) => Ok(None),
        Err(error) if error.is_memory() => Err(AllocError),
        Err(error) => Ok(Some(place_of(&error))),
    }
}

/// The place that the reader of JSON names. It counts a line's bytes from 1, and at the end of all gives their number.
fn place_of(error: &Error) -> JsonPlace {
    let at_end = error.is_eof();
    let column = error.column();
    JsonPlace {
        line: error.line() as u64,
        place: if at_end {
            column
        } else {
            column.saturating_sub(1)
        },
        at_end,
    }
}
