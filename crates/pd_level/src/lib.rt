//! The levels of the consistent cuts of a computation.
//!
//! A level is seen by contracts as its number and the list of its cuts, each as its counts. `first` gives the level
//! with the empty cut alone, and `next` the cuts that have one event more than a cut of the level before, each once and
//! in lexicographic order. A width bounds how many cuts a level may have, and if there are more the fault says so.
//!
//! Inside, a cut is a key, a number whose digits are its counts, and a level the ascending list of its keys. Each
//! process gives the ascending list of the cuts that its events make, and these lists are merged.
//!
//! - `level`: a level, the next one, and its cuts
//! - `fault`: why there is no next level
//! - `gate`: what a worker passes before it expands a block of cuts, and what hears how far a walk has come
//! - `can`: whether one more event leaves a cut
//! - `step`: the cuts that have one event more
//! - `level_key`: the keys of which levels are made
//! - `keys`: the keys of a level, of the kind that has room for its processes
//! - `list`: a list of keys of one kind
//! - `range`: which keys come to lie between two others once an event is added
//! - `merge`: two ascending lists as one
//! - `keep`: some of the keys, by their marks
//! - `read`: what is read of one key of a list
//! - `state`: the state at a cut that is a key
#![tactic(auto)]

mod can;
mod fault;
mod gate;
mod keep;
mod keys;
mod level;
mod level_key;
mod list;
mod merge;
mod range;
mod read;
mod state;
mod step;

pub use fault::LevelFault;
pub use gate::{Gate, NoGate, Reached};
pub use level::Level;
pub use level_key::LevelKey;
