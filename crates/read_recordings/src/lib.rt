//! Reads the streams of a recording: each has all its bytes at hand, and may have any number of them.
//!
//! - `lines`: the lines of a stream, in batches
//! - `streams`: what a stream comes to
#![tactic(auto)]

mod lines;
mod streams;

pub use streams::recorded_stream;
