//! What comes of streams: a document, or why there is none.

use judge_infer::{DocumentFault, StreamFault};

/// Why streams have no document.
#[derive(Clone, Copy, Debug, PartialEq, Eq)]
pub enum Reason {
    /// The stream at this place among the names, counted from 0, has this fault.
    Stream(usize, StreamFault),
    /// The streams have this one together.
    Session(DocumentFault),
}

/// What comes of streams.
#[derive(Debug, Drop)]
pub enum InferOutcome {
    /// The document is written.
    Written,
    /// There is none, for this reason: with the line that says so, and its LF.
    Refused(Reason, Vec<u8>),
}
