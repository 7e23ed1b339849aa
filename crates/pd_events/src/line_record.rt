//! What a line says.
use read_traces::Event;

/// What a line says.
#[derive(Debug, PartialEq, Eq, Drop)]
pub enum LineRecord {
    /// The stream is that of this process, counted from 0.
    Join(usize),
    /// An event of the process.
    Happened(Event),
    /// The process has no more events.
    Finish,
}
