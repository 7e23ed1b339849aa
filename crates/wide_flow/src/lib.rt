//! The first key at which a closed set of steps reaches a target, at any width and without walking a level.
//!
//! A step has a weight, a past and a key. A set of steps is closed if with each step it has those in the step's past.
//! The greatest sum of the weights of a closed set is a minimum cut (Picard, *Maximal Closure of a Graph and
//! Applications to Combinatorial Problems*, 1976). For sums over the cuts of a computation, see Groselj, *Bounded and
//! Minimum Global Snapshots*, 1993, and Chase and Garg, *Detection of Global Predicates: Techniques and their
//! Limitations*, 1998. Since each past is one prefix of each process, no graph is built.
//!
//! - *Takes.* A positive step takes amounts from negative steps in its past, its payers: no more than its weight in
//!   all, and none of them pays more than the size of its own. What the members of a closed set take, members pay. So
//!   the set weighs at most what its positive steps have left.
//! - *Search.* A step that has something left looks for a payer that has something left: among those in its past, or
//!   among those in the past of a step that takes from one of them, and so on. If one is found, the amount is moved
//!   along the way. If none is found, what was reached is frozen: the steps in the pasts of all that were reached are a
//!   closed set that weighs what its positive steps have left. Later searches leave its payers out.
//! - *Keys.* No step has a greater key than one that it is in the past of. So the steps are supplied in the order of
//!   their keys, and after each one the sum of what they have left is the greatest sum of a closed set of these steps.
//!
//! Its modules:
//! - `step`: a step
//! - `rows`: the negative steps of each process
//! - `takes`: what is taken, and how an amount is handed over
//! - `reach`: the steps that a search has reached
//! - `free`: the last payer of a row that has something left
//! - `look`: the payers at which a search looks
//! - `search`: the search for a payer
//! - `pay`: the move of an amount along the way
//! - `supply`: all that one step takes
//! - `first`: the whole
#![tactic(auto)]

mod first;
mod free;
mod look;
mod pay;
mod reach;
mod rows;
mod search;
mod step;
mod supply;
mod takes;

pub use first::first_key;
pub use step::Step;
