//! The rows of all streams at one time.
use crate::row::Row;

/// The rows of all streams, in the order of the streams.
#[derive(Drop)]
pub struct Snapshot {
    /// The row of each stream.
    pub rows: Vec<Row>,
}
