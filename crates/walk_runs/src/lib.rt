//! Whole levels of consistent cuts as runs.
//!
//! A whole level has all consistent cuts of one number of events. Those of its cuts that agree in all counts but the
//! last two are one run: the counts of the last process but one, X, are an interval, and the last process, Y, has the
//! rest. So a level is a list of runs, in the order of their prefixes, which are the counts of the other processes. A
//! level of 5 events of four processes, for one:
//!
//! ```text
//! prefix   X = 0 1 2 3 4 5
//!  0 0         . # # # . .   the run 1 to 3 with 5 events of X and Y: the cuts 0 0 1 4, 0 0 2 3 and 0 0 3 2
//!  0 1         # # . . .     the run 0 to 1 with 4 events of X and Y
//!  1 0         . . # . .     the run 2 to 2, of a prefix that is born at this level
//! ```
//!
//! One level on, the lower end of a run stays where the next event of Y can be added to its first cut, and else moves
//! by one. Its upper end moves by one where the next event of X can be added to its last cut, and else stays. Beside
//! the moved runs stand the prefixes that are born, each with one cut. They are found where a prefix was born one level
//! before, and at an end that has moved by a send that a process of the prefix receives.
//!
//! - `whole`: a whole level, the first one and the next one
//! - `steps`: what is looked up in a computation
//! - `laws`: what holds of runs, births, whole levels and marks
//! - `need`: what an event needs before a cut can have it
//! - `point`: a cut by the key of its prefix, and which events can be added to it
//! - `kept`: a run as it is kept
//! - `kept_birth`: a birth as it is kept
//! - `advance`: a run one level on
//! - `birth`: the cuts that one more event of a process of the prefix makes
//! - `births`: the births that are collected for the next level
#![tactic(auto)]

mod advance;
mod birth;
mod births;
mod kept;
mod kept_birth;
pub mod laws;
mod need;
mod point;
mod steps;
mod whole;

pub use steps::Steps;
pub use whole::Whole;
