//! Lines from pieces of a stream.
//!
//! A framer takes a stream's bytes in pieces and gives the lines that have ended, with their numbers. However the bytes
//! are cut, the lines and the first fault are those of the whole bytes. It keeps no bytes but those of the line that no
//! LF has ended yet, and if memory runs out it stays as it was.
//!
//! - `line`: lines, batches of lines, and faults
//! - `cut`: takes the lines that end off a piece
//! - `framer`: the framer itself
#![tactic(auto)]

mod cut;
mod framer;
mod line;

pub use cut::has_line_feed;
pub use framer::Framer;
pub use line::{Batch, FrameFault, Line};
