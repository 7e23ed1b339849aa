//! Whether some consistent cut satisfies a predicate, under a bound on the width of the levels.
//!
//! The levels are walked from the empty cut on, as `walk` walks them for a single predicate. The answer is the first
//! satisfying cut of the least level that has one; no, if no level has one; or unknown, if a level is wider than the
//! bound before a cut was found. Several workers share the work on wide levels, and their number changes no answer.
//!
//! - `question`: the question and its answer
#![tactic(auto)]

mod question;

pub use question::possibly;
pub use walk_back::PossiblyAnswer;
