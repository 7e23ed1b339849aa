//! The steps of streams.

/// What a stream does.
#[derive(Clone, Copy, Debug, PartialEq, Eq)]
pub enum Step {
    /// It joins the process of this number.
    Join(usize),
    /// It has one event more.
    Event,
    /// Its end line was read.
    End,
    /// It is at fault.
    Fault,
}
