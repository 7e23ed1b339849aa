//! Merges lines of answers and summaries into one summary.
//!
//! The lines are read from the input one after another, and memory holds one of them and the summary. The summary is
//! written once all lines are read, so nothing is written if a line is at fault.
//!
//! What is left on the output and on the errors stands in `specs/Merges.antt`.
//!
//! - `outcome`: what comes of lines that are merged
//! - `input_lines`: the summary of the lines of an input
//! - `notice`: the line that says which line is at fault
//! - `merge`: merges the lines of an input, and writes their summary
//! - `ends`: the exit status, what is reported, and an explanation
#![tactic(auto)]

mod ends;
mod input_lines;
mod merge;
mod notice;
mod outcome;

pub use ends::{merge_text, report_merge};
pub use merge::merge_lines;
pub use outcome::{LineWrong, MergeOutcome};
