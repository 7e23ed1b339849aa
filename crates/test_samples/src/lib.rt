//! Sessions that crates of tests ask about, and the traces of a session's streams: none of these crates has them for
//! itself. It holds no test, and the program doesn't stand on it.
//!
//! - `sessions`: sessions, and the traces of their streams
#![tactic(auto)]

mod sessions;

pub use sessions::{A, B, C, D, SIX, SIX_STREAMS, THREE, THREE_STREAMS, traces_of};
