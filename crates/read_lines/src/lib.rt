//! Reads a source line by line, with memory for one line and one piece.
//!
//! A line that is longer than `LINE_LIMIT` is read past its LF, and its bytes are dropped as they come.
//!
//! - `line`: a line of an input
//! - `held`: the bytes of a piece that are not given yet
//! - `lines`: the lines of a source
#![tactic(auto)]

mod held;
mod line;
mod lines;

pub use line::{LINE_LIMIT, Line};
pub use lines::Lines;
