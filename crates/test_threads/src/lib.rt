//! Tests of work that several workers or threads share: the next level, the answers, the numbers that seats draw, and
//! the values of numbers. Gates show which blocks are at work.
//!
//! The test whose name ends in `_again` makes each of its calls once more if it meets a refusal, and expects what the
//! call gives with memory. So it passes with ample memory, and if any one of its allocations is refused:
//! `bench/refuse_calls.py` refuses them in turn.
//!
//! - `asked`: the computation of a session, and what workers are asked about it
//! - `gates`: when a gate is passed
//! - `levels`: the next level by several workers, beside the one that a single thread finds
//! - `workers`: the answers, whatever the number of workers
//! - `claims`: the numbers that seats draw, alone and in three threads
//! - `values`: the values of numbers, by none, one and several threads
#![tactic(auto)]

#[cfg(test)]
mod asked;
#[cfg(test)]
mod claims;
#[cfg(test)]
mod gates;
#[cfg(test)]
mod levels;
#[cfg(test)]
mod values;
#[cfg(test)]
mod workers;
