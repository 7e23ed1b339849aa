//! What a server works with.
use super::peers::Peers;
use app_arguments::Service;
use app_host::{LevelGate, Notes};
use std::alloc::Global;

/// What the steps of a server's run work with, besides the session.
#[derive(Clone, Copy)]
pub struct Host<'a, F, N> {
    /// Where files are read, and those of a session that is kept are written.
    pub files: &'a F,
    /// Where connections come from.
    pub network: &'a N,
    pub alloc: Global,
    /// What is asked for.
    pub service: &'a Service<'a>,
    /// Of whom it is noted who sends the streams.
    pub peers: &'a Peers,
    /// Hears how far the walk has come.
    pub gate: &'a LevelGate<'a, F>,
    /// What is read, for an explanation.
    pub notes: &'a Notes,
    /// Whether explanations are wanted.
    pub explain: bool,
}
