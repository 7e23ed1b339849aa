//! Reads notes on events, as recorders write them beside a stream: lines of JSON, one for each note.
//!
//! Notes are no part of a session, and no answer depends on them. So a line that is no note costs no refusal: such
//! lines are counted, and of the first one it is kept where it stands and why it is none.
//!
//! - `note`: a note, and the one that a line holds
//! - `notes`: the notes of several files
#![tactic(auto)]

mod note;
mod notes;

pub use note::EventNote;
pub use notes::{EventNotes, NOTES_BYTE_LIMIT, Noted, WrongLine};
