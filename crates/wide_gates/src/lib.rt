//! Gates: events right before or right after which a predicate surely holds, as its comparisons tell, each by itself.
//! And tried cuts: the first satisfying one of the least and the greatest cuts right before and right after each event,
//! and of those on one way back from the full cut.
//!
//! The counts right after an event have of each other process what happened before the event, and nothing that it
//! happened before, and right before it they have one event less of its own process. So of each process they may have
//! any count between two bounds, whatever the others have. The greatest excess of a comparison there is then the sum of
//! what each process adds at most between its bounds, and it says whether the comparison is excluded.
//!
//! - `spot`: right before or right after each event
//! - `high`: how many events of a process come before all that an event happened before
//! - `range`: which counts a process may have around an event
//! - `boxes`: the ranges of the processes around each event
//! - `table`: the greatest number of a row between two counts
//! - `greatest`: the greatest sum of rows right before and right after each event
//! - `levels`: the greatest number of events there
//! - `excluded`: which comparisons are excluded by the greatest excess
//! - `sure`: where a predicate surely has a value
//! - `least`: the least level at which it surely holds
//! - `ends`: the least and the greatest counts there
//! - `seen`: the first of the cuts that were looked at
//! - `way`: the cuts on the way back
//! - `tried`: the first tried cut that satisfies a predicate
#![tactic(auto)]

mod boxes;
mod ends;
mod excluded;
mod flags;
mod greatest;
mod high;
mod least;
mod levels;
mod range;
mod seen;
mod spot;
mod sure;
mod table;
mod tried;
mod way;

pub use least::least_gate;
pub use tried::first_tried;
