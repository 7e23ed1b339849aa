//! Conjunctions and disjunctions of predicates on one process each, decided at any width without walking a level.
//!
//! Such a predicate says which counts of each process are good.
//!
//! - *The least cut.* For Possibly of a conjunction, the least consistent cut at which the count of each process is
//!   good is found directly. Where a predicate is a disjunction of such conjunctions, the first of their least cuts is
//!   the first satisfying one.
//! - *Clauses.* For Definitely of a disjunction: every observation comes to each count of each process, so it passes
//!   through a satisfying cut if there is a good count at all. The avoiding cuts are those in which no process has come
//!   to a good count, and the greatest of them tells the level from which on there is none.
//! - *Boxes.* For Definitely of a conjunction: a maximal range of good counts of a process is an interval. A box in a
//!   cut is an interval of each process such that no process leaves its own, within the cut, before each other one has
//!   come to its own: every observation that comes to the cut has been in all of them at once. A cut avoids exactly if
//!   there is no box in it.
//!
//! Its modules:
//! - `intervals`: the next interval of a process
//! - `past`: what an event has in its past
//! - `box_least`: the least box of the cut with all events
//! - `box_level`: the level from which on no cut avoids
//! - `rows`: the intervals of each process, by the count before which one is looked for
//! - `last`: whether there is a box, looked for from the last intervals on
//! - `holds`: what keeps the last event of a process from being undone
//! - `way`: the path of an observation that avoids
//! - `passage`: the whole
//! - `box_laws`: what boxes decide
//! - `firsts`: the first good count of each process
//! - `most`: the greatest cut in which no process has come to a good count
//! - `clause_level`: the least level that has no avoiding cut
//! - `clause_laws`: what the greatest cut decides
//! - `good_counts`: which counts of each process are good
//! - `least`: the least good cut
//! - `order`: the order in which cuts are looked at
//! - `least_laws`: what the first of several least good cuts is
#![tactic(auto)]

mod box_laws;
mod box_least;
mod box_level;
mod clause_laws;
mod clause_level;
mod firsts;
mod good_counts;
mod holds;
mod intervals;
mod last;
mod least;
mod least_laws;
mod most;
mod order;
mod passage;
mod past;
mod rows;
mod way;

pub use box_laws::boxes;
pub use box_least::least_box;
pub use clause_laws::clauses;
pub use clause_level::free_level;
pub use good_counts::GoodCounts;
pub use least::{go_up, least_good};
pub use least_laws::{cut_order, first_of_least};
pub use most::most_before;
pub use order::{events, is_before, is_lex_below};
pub use passage::{Passage, definitely_all_good};
