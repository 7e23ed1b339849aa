//! Checkers of the evidence in a report: a cut that satisfies a predicate, and an observation without one. And an
//! observation through a cut, which shows that the cut could have been seen.
//!
//! They take one cut or one path after another, and have nothing of the walks that find them. So whoever doubts a walk
//! can still check what it reported.
//!
//! - `cut`: whether counts are those of a cut that satisfies
//! - `path`: whether process numbers name an observation with no satisfying cut
//! - `observation`: an observation through a cut
#![tactic(auto)]

mod cut;
mod observation;
mod path;

pub use cut::check_cut;
pub use observation::through;
pub use path::check_path;
