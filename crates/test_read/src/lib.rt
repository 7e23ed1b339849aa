//! Tests of what is read: of calls that are refused an allocation and made again, on frames, traces and steps that come
//! in pieces; and of readers that are asked no more than is needed. `test_judge` has readers that fail, wait for one
//! another or take turns, and `cases/` what a document, a predicate or a stream means.
//!
//! A test whose name ends in `_again` makes each of its calls once more if it meets a refusal, looks that what the call
//! may change is as it was, and expects what the call gives with memory. So it passes with ample memory, and if any one
//! of its allocations is refused: `bench/refuse_calls.py` refuses them in turn.
//!
//! - `samples`: a document with two processes
//! - `framers`: lines from pieces
//! - `readers`: traces from pieces, of one stream and of two that take turns
//! - `sources`: readers that tests are given
//! - `readings`: how far a stream is read
//! - `registers`: steps that are posted, and what is shown
#![tactic(auto)]

#[cfg(test)]
mod framers;
#[cfg(test)]
mod readers;
#[cfg(test)]
mod readings;
#[cfg(test)]
mod registers;
#[cfg(test)]
mod samples;
#[cfg(test)]
mod sources;
