//! Lines of JSON, one for each session: the session itself, what it comes to, or why there is none.
//!
//! Each line is one object without spaces, which is ended by an LF. What stands in it is in `specs/Lines.antt`.
//!
//! - `sessions`: the line of a session, or of one that can't be read
//! - `answers`: the line of what a session comes to, or of why it comes to nothing
//! - `line`: the line of a value
#![tactic(auto)]

mod answers;
mod line;
mod sessions;

pub use answers::{answer_line, error_line};
pub use sessions::{session_line, unread_line};
