//! Tests of the calls between the streams and the answers that no file shows: messages by random keys and without, how
//! many levels are held at once, whether runs are skipped, and answers that are asked for again after memory was
//! refused. `test_threads` has those of work by several threads.
//!
//! The test whose name ends in `_again` makes each of its calls once more if it meets a refusal, and expects what the
//! call gives with memory. So it passes with ample memory, and if any one of its allocations is refused:
//! `bench/refuse_calls.py` refuses them in turn.
//!
//! - `asked`: the computation of a session, and what is asked about it
//! - `messages`: the messages of a session, with random keys and without
//! - `skipped`: runs that are skipped
//! - `definite`: answers for Definitely, and what is found of their paths
//! - `held`: how many levels are held at once, exactly
#![tactic(auto)]

#[cfg(test)]
mod asked;
#[cfg(test)]
mod definite;
#[cfg(test)]
mod held;
#[cfg(test)]
mod messages;
#[cfg(test)]
mod skipped;
