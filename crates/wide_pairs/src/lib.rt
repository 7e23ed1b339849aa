//! Predicates on two processes, decided at any width without walking a level.
//!
//! Such a predicate is true or false at the counts of its two processes, whatever the others do. The pairs of counts
//! that consistent cuts have are a band of a grid: for each count of the one process the counts of the other are an
//! interval, whose ends never fall.
//!
//! Each comparison is kept as two rows of numbers, what the one process adds to the difference of its sides by its
//! count and what the other adds, so a pair of counts takes an addition for each comparison.
//!
//! ```text
//! a.n + b.n > 3    at 5 events of a and 2 of b:    (a.n - 3 after 5 events) + (b.n after 2 events) > 0
//! ```
//!
//! - `good_pairs`: which pairs are good
//! - `least`: the least consistent cuts in which processes have some events at least
//! - `band`: the consistent pairs of one count of the first process
//! - `grid_possibly`: the first satisfying cut
//! - `grid_row`, `grid`: the pairs of avoiding cuts
//! - `way`: the way back from the full cut where it avoids
//! - `most`, `level`: the greatest avoiding cuts, and the level after them
//! - `grid_definitely`: whether every observation passes through a satisfying cut
//! - `grid_laws`: which pairs are those of avoiding cuts
//! - `pair`: two processes
//! - `names`: which processes a predicate names
//! - `part`: what a process adds to a sum
//! - `row`: a row of numbers, one for each count of a process
//! - `word`: truths of a row of numbers as the bits of a word
//! - `rows`: a comparison as two rows of numbers
//! - `test`: the predicate by the counts of its two processes
//! - `possibly`: the first satisfying cut
//! - `definitely`: whether every observation passes through a satisfying cut
#![tactic(auto)]

mod band;
mod definitely;
mod good_pairs;
mod grid;
mod grid_definitely;
mod grid_laws;
mod grid_level;
mod grid_possibly;
mod grid_row;
mod least;
mod most;
mod names;
mod pair;
mod part;
mod possibly;
mod row;
mod rows;
mod test;
mod way;
mod word;

pub use definitely::{PassageOfTwo, definitely_of_two};
pub use good_pairs::GoodPairs;
pub use grid_definitely::{Passage, definitely_by_pairs};
pub use grid_laws::avoiding_pairs;
pub use grid_possibly::possibly_by_pairs;
pub use part::difference;
pub use possibly::{first_of_two, is_of_two};
pub use row::row_of;
