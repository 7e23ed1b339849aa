//! What is wrong with a line or a stream, and how far a stream is.
use std::alloc::AllocError;

/// Why a line has no record.
#[derive(Clone, Copy, Debug, PartialEq, Eq)]
pub enum RecordFault {
    /// It isn't a JSON value.
    Json,
    /// The value has none of the shapes of a record.
    Shape,
    /// A join after another, or another record before any.
    Join,
    /// The session has no process of this name.
    UnknownProcess,
    /// The process has no variable of this name.
    UnknownVar,
    /// A value that isn't a whole number of 64 bits.
    Value,
    /// The id of a message that has no byte, or more than 64.
    MessageId,
    /// Memory ran out.
    Memory,
}

impl From<AllocError> for RecordFault {
    ghost use Rattle.pd_events.specs.declared.fault.RecordFault.{RecordFault};
    ghost use Rattle.std.specs.Prelude.{◌≡◌};

    ghost from_gives = { λ _ e. e ≡ RecordFault.Memory };

    fn from(_error: AllocError) -> RecordFault {
        RecordFault::Memory
    }
}

/// What is wrong with a stream.
#[derive(Clone, Copy, Debug, PartialEq, Eq)]
pub enum StreamKind {
    /// A line has more than 65,536 bytes.
    LineTooLong,
    /// The stream has more than 16,777,216 bytes.
    StreamTooLong,
    /// A line isn't a JSON value.
    Json,
    /// A line's value has none of the shapes of a record.
    Shape,
    /// The first record isn't a join, or a later one is.
    Join,
    /// The session has no process of this name.
    UnknownProcess,
    /// The process has no variable of this name.
    UnknownVar,
    /// A value that isn't a whole number of 64 bits.
    Value,
    /// The id of a message that has no byte, or more than 64.
    MessageId,
    /// The process has more than 10,000 events.
    Events,
    /// The input ended before the end line.
    Unended,
    /// A read of the input failed.
    Read,
}

/// The first fault of a stream.
#[derive(Clone, Copy, Debug, PartialEq, Eq)]
pub struct StreamFault {
    /// The number of the line at fault, counted from 1; if the input ended too soon, one more than there are lines.
    pub line: u64,
    /// What is wrong.
    pub kind: StreamKind,
}

/// How far a stream is.
#[derive(Clone, Copy, Debug, PartialEq, Eq)]
pub enum StreamState {
    /// No record has come.
    Fresh,
    /// Its process has joined.
    Joined,
    /// Its end line has come.
    Ended,
    /// It has a fault.
    Faulted,
}
