//! What is written of a line.

/// What is written of a line, and the status that counts.
#[derive(Drop)]
pub(crate) struct Answer {
    /// 0, 5 or 1: the session is judged, and has no answer to fail on or one; or it is refused, or there is none.
    pub(crate) status: u8,
    /// With its LF.
    pub(crate) line: Vec<u8>,
}
