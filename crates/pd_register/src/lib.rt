//! A register that threads share: the history of the steps of some streams, and the streams' rows in it.
//!
//! `Register::new` gives a seat for each stream, and a watcher. Who has a stream's seat posts its steps, one after
//! another, and may ask for the rows of all streams; the watcher posts nothing. A seat and a watcher may each go to
//! another thread. The history that one of them is shown begins with all that it has seen, and a seat's own row is
//! always that of its own posts.
//!
//! The history with its rows lies in one slot of an `atomic_table` under one word, which is the lock: 0 if it is
//! free. What the lock keeps is stated in `specs/LockRule.antt`.
//!
//! - `step`: the steps of streams
//! - `row`: what is known of a stream
//! - `post`: a step with its stream
//! - `snapshot`: the rows of all streams
//! - `history`: the history with its rows, as it lies under the lock
//! - `view`: what a seat knows, in proofs alone
//! - `rule`: the lock's rule, and the steps that keep it
//! - `seat`: the right to post a stream's steps
//! - `watcher`: the right to look
//! - `register`: the register itself
#![tactic(auto)]

mod history;
mod post;
mod register;
mod row;
mod rule;
mod seat;
mod snapshot;
mod step;
mod view;
mod watcher;

pub use register::Register;
pub use row::{Row, RowState};
pub use seat::Seat;
pub use snapshot::Snapshot;
pub use step::Step;
pub use watcher::Watcher;
