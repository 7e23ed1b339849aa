//! Why a stream is refused, and why streams have no document.
use std::alloc::{AllocError, AllocFailed};

/// What is wrong with a stream.
#[derive(Clone, Copy, Debug, PartialEq, Eq)]
pub enum Wrong {
    /// It has more than 16,777,216 bytes.
    StreamTooLong,
    /// It has no line that says whose it is.
    NoLine,
    /// The line has more than 65,536 bytes.
    LineTooLong,
    /// The line isn't a JSON value, and isn't the last one.
    Json,
    /// The line's value has none of the shapes of a record.
    Shape,
    /// The first record doesn't say the process.
    NoJoin,
    /// A later record says a process.
    SecondJoin,
    /// The name of the process is none that a document can have.
    ProcessName,
    /// The process has more than 10,000 events.
    Events,
    /// A value that isn't a whole number of 64 bits.
    Value,
    /// The id of a message that has no byte, or more than 64.
    MessageId,
    /// The name of a variable is none that a document can have.
    VarName,
    /// The process has more than 16 variables.
    Vars,
}

/// The first fault of a stream.
#[derive(Clone, Copy, Debug, PartialEq, Eq)]
pub struct StreamFault {
    /// The number of the line at fault, counted from 1; none if it is the stream as a whole.
    pub line: Option<u64>,
    /// What is wrong.
    pub wrong: Wrong,
}

/// Why a stream wasn't added.
#[derive(Clone, Copy, Debug, PartialEq, Eq)]
pub enum AddFault {
    /// The stream is refused.
    Refused(StreamFault),
    /// Memory ran out.
    Memory,
}

impl From<AllocError> for AddFault {
    ghost use Rattle.judge_infer.specs.declared.fault.AddFault.{AddFault};
    ghost use Rattle.std.specs.Prelude.{◌≡◌};

    ghost from_gives = { λ _ e. e ≡ AddFault.Memory };

    fn from(_error: AllocError) -> AddFault {
        AddFault::Memory
    }
}

impl<T: Drop> From<AllocFailed<T>> for AddFault {
    ghost use Rattle.judge_infer.specs.declared.fault.AddFault.{AddFault};
    ghost use Rattle.std.specs.Prelude.{◌≡◌};

    ghost from_gives = { λ _ e. e ≡ AddFault.Memory };

    fn from(_error: AllocFailed<T>) -> AddFault {
        AddFault::Memory
    }
}

/// Why streams have no document.
#[derive(Clone, Copy, Debug, PartialEq, Eq)]
pub enum DocumentFault {
    /// There is no stream.
    NoStream,
    /// There are more than 16 streams.
    TooMany,
    /// Two streams are of one process. They are given by their places, counted from 0, the earlier one first.
    SameProcess(usize, usize),
    /// Memory ran out.
    Memory,
}

impl From<AllocError> for DocumentFault {
    ghost use Rattle.judge_infer.specs.declared.fault.DocumentFault.{DocumentFault};
    ghost use Rattle.std.specs.Prelude.{◌≡◌};

    ghost from_gives = { λ _ e. e ≡ DocumentFault.Memory };

    fn from(_error: AllocError) -> DocumentFault {
        DocumentFault::Memory
    }
}

impl<T: Drop> From<AllocFailed<T>> for DocumentFault {
    ghost use Rattle.judge_infer.specs.declared.fault.DocumentFault.{DocumentFault};
    ghost use Rattle.std.specs.Prelude.{◌≡◌};

    ghost from_gives = { λ _ e. e ≡ DocumentFault.Memory };

    fn from(_error: AllocFailed<T>) -> DocumentFault {
        DocumentFault::Memory
    }
}

ghost use Rattle.judge_infer.specs.Inferred.{fault_at};
ghost use Rattle.judge_infer.specs.Views.{add_fault_view, wrong_view};
ghost use Rattle.std.specs.Prelude.{◌≡◌, Some};

/// The refusal of a stream for a line.
pub(crate) fn line_fault(line: u64, wrong: Wrong) -> AddFault
    ensures { add_fault_view result ≡ Some (fault_at line (wrong_view wrong)) }
{
    AddFault::Refused(StreamFault {
        line: Some(line),
        wrong,
    })
}

ghost use Rattle.judge_infer.specs.Inferred.{fault_of_whole};

/// The refusal of a stream as a whole.
pub(crate) fn stream_fault(wrong: Wrong) -> AddFault
    ensures { add_fault_view result ≡ Some (fault_of_whole (wrong_view wrong)) }
{
    AddFault::Refused(StreamFault { line: None, wrong })
}
