//! What a run stands on.
use super::file_source::FileSource;
use super::network::Network;
use super::notes::Notes;
use std::alloc::Global;
use std::random::RandomSource;
use std::sync::Wait;
use std::thread::Threads;

/// The kinds of what a run stands on, as one name for three types.
pub trait System {
    /// Threads, waiting and random numbers.
    type Runtime: RandomSource + Threads + Wait + Sync;

    /// Where files are read, and those of a session that is kept are written.
    type Files: FileSource;

    /// Where connections come from.
    type Network: Network + Sync;
}

impl<S: RandomSource + Threads + Wait + Sync, F: FileSource, N: Network + Sync> System
    for (S, F, N) {
    type Runtime = S;

    type Files = F;

    type Network = N;
}

/// What a run stands on besides its input and its outputs. It is made once, by `run`, and handed on.
#[derive(Drop)]
pub struct World<'a, Y: System> {
    pub rt: &'a Y::Runtime,
    pub files: &'a Y::Files,
    pub network: &'a Y::Network,
    pub alloc: Global,
    /// Whether explanations are wanted.
    pub explain: bool,
    /// What is read, for an explanation.
    pub notes: &'a Notes,
}
