//! Tests of the order of runs by their traces: that it is found, which no clause of `judge_orders` says, and that it is
//! the order by clocks.
//!
//! - `found`: the order of a session's run in both ways
//! - `runs`: the runs
#![tactic(auto)]

#[cfg(test)]
mod found;
#[cfg(test)]
mod runs;
