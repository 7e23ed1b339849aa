//! Which cuts of a whole level avoid: one bit for each cut, so that up to 64 neighboring cuts are decided at once.
//!
//! A run keeps its prefix from level to level, so whether a predicate can hold at any of its cuts is asked once, when
//! the run is born, and the answer is kept with the run.
//!
//! - `marks`: the marks of a level, and how many there are
//! - `find`: the place of a run by its number
//! - `run`: what is read of a run
//! - `parents`: the marks of the cuts with one event less
//! - `hits`: which cuts of a run satisfy
//! - `mark`: the marks of the first level with a satisfying cut, and those of the next level
//! - `list`: the numbers of the marked cuts
//! - `skips`: which runs aren't looked at
//! - `spots`: where the words of a level's marks begin
//! - `by_threads`: the first cut that satisfies, and the marks of the next level, by several threads
//! - `hit`: the first cut of a level that satisfies
//! - `skipped`: the words of a level's runs, from nothing or from those of the level before
//! - `skips_by_threads`: the words of a level's runs, by several threads
//! - `asked`: the word of one run
#![tactic(auto)]

mod asked;
mod by_threads;
mod find;
mod hit;
mod hits;
mod list;
mod mark;
mod marks;
mod parents;
mod run;
mod skipped;
mod skips;
mod skips_by_threads;
mod spots;

pub use by_threads::{first_hit_by_threads, next_by_threads};
pub use hit::first_hit;
pub use mark::{next, unsatisfying};
pub use marks::Marks;
pub use skipped::SkippedRuns;
pub use skips::Skips;
