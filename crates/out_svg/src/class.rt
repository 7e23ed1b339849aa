//! What a shape is drawn as.

/// What a shape is drawn as: its colour, its stroke and its type are those of the class.
#[derive(Clone, Copy, Debug, PartialEq, Eq)]
pub enum Class {
    /// The line of a process.
    Process,
    /// An event that has happened.
    Past,
    /// An event that is still to come.
    Next,
    /// A message that was received.
    Message,
    /// A message in flight.
    Flight,
    /// The mark at the end of a message that goes beyond what is shown.
    Beyond,
    /// A cut across the processes.
    Cut,
    /// The number of an event.
    Number,
    /// The number of a step of an observation.
    Step,
    /// The value of a variable.
    Value,
    /// The name of a process, or a heading.
    Name,
    /// A remark.
    Note,
}
