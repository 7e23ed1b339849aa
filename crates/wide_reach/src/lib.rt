//! The lowest cut of a slice at which a sum over processes reaches a total, at any width and without walking a level.
//!
//! If the sum at the least cut of the slice reaches the total, that cut is the lowest. If it doesn't, a closed set of
//! steps has to add what is lacking. The steps are put in the order of the greatest counts of their pasts, and the
//! first key at which a closed set adds enough is the height of the lowest cut. Then, for one process after another,
//! the steps are put in the order of their pasts' counts of that process, and the first key is the count of the process
//! in the lowest cut. Steps whose pasts are above a height or a count that was found before come last, and are left
//! out.
//!
//! Its modules:
//! - `key`: by what number steps are put in order
//! - `sorted`: the steps in that order
//! - `bound`: the lowest bound within which a closed set of steps reaches what is lacking
//! - `sum`: what the sum lacks at a cut
//! - `lowest`: the whole
#![tactic(auto)]

mod bound;
mod key;
mod lowest;
mod sorted;
mod sum;

pub use lowest::{lowest_with, some_reaches};
pub use sum::{number, sum_of};
