//! One walk up the whole levels, for all predicates and both questions.
//!
//! - `setting`: what the whole walk goes by
//! - `stage`: what is known of a predicate on the way
//! - `round`: all predicates at a whole level
//! - `task`: one predicate at a whole level
//! - `seen`: what is seen of a predicate at a level
//! - `settle`: what the marks of a level decide
//! - `look`: how a predicate goes on from one level to the next
//! - `turns`: the predicates' turns in a round, drawn by several workers
//! - `worth`: whether the work at a level is worth several threads
//! - `walk`: the walk up the whole levels, for all predicates
//! - `finish`: the answers after the last whole level
//! - `all`: the answers for all predicates
//! - `one`: the answers for one predicate
#![tactic(auto)]

mod all;
mod finish;
mod look;
mod one;
mod round;
mod seen;
mod setting;
mod settle;
mod stage;
mod task;
mod turns;
mod walk;
mod worth;

pub use all::{answer_all, answer_within};
pub use one::{answer_one, answer_possibly};
