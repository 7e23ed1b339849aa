//! Events and traces.
use super::Events;

/// What kind of event it is.
#[derive(Debug, PartialEq, Eq, Drop)]
pub enum EventKind {
    /// An event of its process alone.
    Local,
    /// It sends the message with this id, which has 1 to 64 bytes.
    Send(String),
    /// It receives the message with this id, which has 1 to 64 bytes.
    Recv(String),
}

/// An event of a process.
#[derive(Debug, PartialEq, Eq, Drop)]
pub struct Event {
    /// What kind of event it is.
    pub kind: EventKind,
    /// The variables that it sets, with their values. Variables are counted from 0 among those of the process, and
    /// ascend.
    pub sets: Vec<(usize, i64)>,
}

/// The events of a process.
#[derive(Drop)]
pub struct Trace {
    /// The process, counted from 0.
    pub process: usize,
    /// The number of the line in which it joined, counted from 1.
    pub join_line: u64,
    /// Its events in their order, at most 10,000.
    pub events: Events,
}
