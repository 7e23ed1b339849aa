//! What comes of recorded runs that are tested: which answers are not as wished, the line that says so of each run, and
//! the numbers of runs at the end.
//!
//! A wish is for the predicate of a name, or for each predicate: that it never holds, that it holds in every
//! observation, or that it holds in some. An answer that is unknown is never as wished.
//!
//! - `wish`: what is wished of predicates, and which answers are not as wished
//! - `outcome`: what comes of a run
//! - `verdict`: whether a run passes
//! - `line`: the line that says what came of a run
//! - `tally`: the verdicts of runs, and the text at the end
//! - `conclusion`: what runs come to together
#![tactic(auto)]

mod conclusion;
mod line;
mod outcome;
mod tally;
mod verdict;
mod wish;

pub use conclusion::Conclusion;
pub use line::line_of;
pub use outcome::Outcome;
pub use tally::{Counts, Tally};
pub use verdict::Verdict;
pub use wish::{Wish, WishKind, definitely_word, first_unnamed, has_name, possibly_word};
