//! Reduces a recorded run, of any length, to a session that has its answers, which is written into a folder.
//!
//! The streams are read whole, one after another, and the bytes of one are dropped before the next one is read. The
//! session is made by the run's order alone, and read back before it is written: what is written is a session that has
//! the run's answers.
//!
//! What is left on the output stands in `specs/Reduced.antt`.
//!
//! - `counts`: how many processes, events and messages a run has
//! - `outcome`: what comes of a recorded run
//! - `texts`: the text of that
//! - `recorded_streams`: reads recorded streams
//! - `reductions`: reduces a recorded run
//! - `notes`: notes that say which events of the run those of the session are
//! - `unwritten`: which file or folder couldn't be written, and why
//! - `folder`: writes a session into its folder
//! - `reduced_files`: reduces the recorded run in files
//! - `short_texts`: long explanations, cut in their middle
//! - `ends`: the exit status, what is reported, and an explanation
#![tactic(auto)]

mod counts;
mod ends;
mod folder;
mod notes;
mod outcome;
mod recorded_streams;
mod reduced_files;
mod reductions;
mod short_texts;
mod texts;
mod unwritten;

pub use counts::Counts;
pub use ends::{reduction_text, report_reduction};
pub use outcome::{MadeSession, Outcome};
pub use reduced_files::reduce_files;
pub use unwritten::Unwritten;
