//! Judges sessions that come in lines, or in bundles, and writes a line of each.
//!
//! A line or a bundle that holds no session, a session that is refused and one whose document lacks a predicate that is
//! named have a line too, and stop nothing. What is written stands in `specs/Answers.antt`, and what is left of a batch
//! in `specs/Batches.antt`.
//!
//! - `asked`: how the sessions come, and what is asked of each
//! - `answer`: what is written of a line
//! - `entries`: the entries of an input: its lines, or its bundles
//! - `texts`: the report of a session whose streams are all there
//! - `answers`: what is written of a session, and of an entry
//! - `found`: what is found in the answers so far
//! - `round`: some entries, which are read, answered side by side, and put together
//! - `batch`: answers the entries of an input, round by round
//! - `ends`: an explanation of how a batch ended
#![tactic(auto)]

mod answer;
mod answers;
mod asked;
mod batch;
mod ends;
mod entries;
mod found;
mod round;
mod texts;

pub use asked::Asked;
pub use batch::batch_lines;
pub use ends::batch_text;
