//! A recorded run of any length: its order, by the events that its document's predicates can see, or the refusal of the
//! session.
//!
//! - `events`: how many events there are
//! - `recordings`: the run of a session's streams
#![tactic(auto)]

mod events;
mod recordings;

pub use recordings::{RecordedRun, recorded_run};
