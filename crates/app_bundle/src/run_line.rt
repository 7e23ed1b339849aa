//! What comes of a run.

/// What comes of a run.
#[derive(Drop)]
pub(crate) struct RunLine {
    /// Whether it could be read.
    pub(crate) is_session: bool,
    /// Its line, with its LF.
    pub(crate) line: Vec<u8>,
}
