//! The formats of what is written: a report, what a check finds, or what came of recorded runs.

/// The format in which it is written.
#[derive(Clone, Copy)]
pub enum Format {
    /// Lines of text.
    Plain,
    /// One JSON object.
    Json,
}
