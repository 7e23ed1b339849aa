//! The search back from the cut with all events for an observation that avoids, at any width and without walking a
//! level.
//!
//! The search goes depth first, and each step undoes the last event of the least process that leaves a cut worth
//! trying. A cut from which there is no way on is a dead end. What the predicate sees of a cut are the counts of the
//! processes that it names, and dead ends are remembered by these alone. That is enough: if no process can be undone at
//! a cut, each other consistent cut of which the same is seen has all its events, and each way on from there leads to
//! dead ends as well. So the events of processes that the predicate doesn't name make no dead ends of their own, and a
//! predicate that names few processes is decided however wide the levels are.
//!
//! - `way`: what the search comes to
//! - `names`: which processes a predicate names
//! - `search`: what a search goes by
//! - `cuts`: cuts, and what the predicate sees of them
//! - `dead`: the dead ends
//! - `steps`: the next step
//! - `descent`: steps as long as there is one
//! - `climb`: the way from a dead end back up
//! - `back`: the search
#![tactic(auto)]

mod back;
mod climb;
mod cuts;
mod dead;
mod descent;
mod names;
mod search;
mod steps;
mod way;

pub use back::way_back;
pub use way::Way;
