//! The readings of all streams.
use pd_events::StreamFault;
use read_traces::Trace;

/// What the streams of a session gave.
#[derive(Drop)]
pub struct Gathered {
    /// How many streams there are.
    pub streams: u64,
    /// The trace of each stream in order, or its fault; none if there are too many streams to be read.
    pub readings: Vec<Result<Trace, StreamFault>>,
}
