//! Recordings of any length: how their streams are read, which runs they make, and which sessions have the answers of a
//! run. The definitions stand in `specs/`; the one function here has no code, and its contract is a law.
//!
//! - `limits`: the limits of a recording
#![tactic(auto)]

mod limits;

ghost use Rattle.def_recordings.specs.Laws.{WithinLimits};

pub use limits::{RECORDED_EVENT_LIMIT, RECORDED_PROCESS_LIMIT, RECORDED_STREAM_LIMIT};

/// A stream within the limits of a session is read as one of a session is.
pub fn within_limits()
    ensures { WithinLimits }
{}
