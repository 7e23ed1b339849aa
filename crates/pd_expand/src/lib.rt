//! Whole levels expanded by several workers.
//!
//! Block *b* of a level holds its cuts 64*b* to 64*b* + 63, as far as they go. `next_level` gives what
//! `pd_level::Level::next` gives: each worker, on a thread of its own, draws the numbers of blocks, expands each block,
//! and keeps its part of the next level with the block's number. The parts of all workers are then put together, so
//! that neither the number of workers nor their turns show in the answer. `marks` says of each cut of a level whether
//! it satisfies a predicate, by as many threads as there are processors.
//!
//! The numbers of blocks lie in one word of an `atomic_table`, from which each is drawn once. What that word keeps is
//! stated in `specs/ClaimRule.antt`.
//!
//! - `claims`: blocks handed out to workers
//! - `claim_seat`: one worker's right to draw blocks
//! - `view`: what a seat knows, in proofs alone
//! - `rule`: the word's rule, and the steps that keep it
//! - `part`: a block's part of the next level
//! - `blocks`: how many blocks there are, and the expansion of one
//! - `workers`: several workers that expand the blocks of a level
//! - `union`: the parts of a level put together
//! - `laws`: each cut of the next level lies in one block
//! - `expanding`: the next level, by several workers
//! - `marking`: which cuts of a level satisfy a predicate
//! - `crew`: several workers that share the work on a level
#![tactic(auto)]

mod blocks;
mod claim_seat;
mod claims;
mod crew;
mod expanding;
mod laws;
mod marking;
mod part;
mod rule;
mod union;
mod view;
mod workers;

pub use claim_seat::ClaimSeat;
pub use claims::Claims;
pub use crew::Crew;
pub use expanding::next_level;
pub use laws::blocks_cover_the_next_level;
pub use marking::marks;
pub use pd_level::{Gate, NoGate};
