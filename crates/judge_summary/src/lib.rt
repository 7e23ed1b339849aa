//! Summaries of runs: how often each answer and each exit status was given, and which runs failed.
//!
//! A summary is made of the lines that `batch` writes, and of other summaries, which merge: their text is such a line,
//! too. It is the same in whatever groups the lines are summed up.
//!
//! - `summary`: a summary, to which lines are added
//! - `change`: what a line adds
//! - `counts`: counts of texts
//! - `fault`: why a line adds nothing
//! - `conclusion`: what comes of the runs that a summary counts
#![tactic(auto)]

ghost use Rattle.judge_summary.specs.SummaryLaws.{GroupsMerge, LinesMakeSummaries, MergesAreSummaries, MergesAssociate, MergesCommute, NothingMerges};

mod change;
mod conclusion;
mod counts;
mod fault;
mod summary;

pub use conclusion::Conclusion;
pub use fault::LineFault;
pub use summary::Summary;

/// Summaries merge in any order and in any groups, into a summary, and one of nothing changes nothing.
pub fn summaries_merge()
    ensures commute { MergesCommute }
    ensures associate { MergesAssociate }
    ensures nothing { NothingMerges }
    ensures summaries { MergesAreSummaries }
{}

/// Lines come to the same summary in whatever groups they are summed up, and what they come to is a summary.
pub fn groups_merge()
    ensures groups { GroupsMerge }
    ensures summaries { LinesMakeSummaries }
{}
