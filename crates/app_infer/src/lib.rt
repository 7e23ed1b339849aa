//! Infers the first document of recorded streams, each in a file.
//!
//! The files are opened in their order, and each is read whole before the next one is opened. The document is made once
//! all of them are read, so nothing is written of streams that are refused.
//!
//! What is left on the output and on the errors stands in `specs/Inferences.antt`.
//!
//! - `outcome`: what comes of streams: a document, or why there is none
//! - `words`: the line that says why there is no document
//! - `refusals`: why streams have no document, with that line
//! - `stream_files`: reads the streams, and writes their document
//! - `advice`: what to do about streams that have no document
//! - `ends`: the exit status, what is reported, and an explanation
#![tactic(auto)]

mod advice;
mod ends;
mod outcome;
mod refusals;
mod stream_files;
mod words;

pub use ends::{infer_text, report_infer};
pub use outcome::{InferOutcome, Reason};
pub use stream_files::infer_files;
