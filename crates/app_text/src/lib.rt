//! The text of an explanation: words and bytes as they are shown, lines of what was read, and rows.
//!
//! Each function that says something says it at the end of a text, as far as memory goes. Nothing is taken for granted
//! of bytes that are shown: what isn't plain ASCII is shown as `\xNN`, a name has at most 100 bytes, and a line a
//! window of 70 columns. Stated is which bytes are said, which line, record and place is found, which window of a line
//! is shown and where its caret stands, and how lines are broken into rows.
//!
//! - `text`: a text while it is written
//! - `says`: words, numbers and shown bytes
//! - `lines`: the lines of bytes, and places in them
//! - `window`: a line with a caret below a place of it
//! - `source`: what was read of a file, and its lines as they are shown
//! - `noted`: what was noted of an event
//! - `rows`: the lines of an explanation, no wider than 80 columns
#![tactic(auto)]

mod lines;
mod noted;
mod rows;
mod says;
mod source;
mod text;
mod window;

pub use lines::{
    Record, cut_line, line_at, line_of_place, next_record, place_of_name, places_of_name,
    record_after,
};
pub use rows::{in_rows, rows_of};
pub use source::Source;
pub use text::Text;
