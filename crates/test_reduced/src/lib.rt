//! Tests of what reductions of small runs consist of. The clauses of `judge_reduced` say what holds of a reduction, but
//! not when there is one, nor that it has no event and no receipt too many.
//!
//! - `made`: the reduction of a session's run, and whether it consists of the expected events
//! - `runs`: the runs
#![tactic(auto)]

#[cfg(test)]
mod made;
#[cfg(test)]
mod runs;
