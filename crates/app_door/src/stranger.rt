//! A connection that was closed before it was a stream.

/// Why a connection was closed.
#[derive(Clone, Copy)]
pub enum StrangerReason {
    /// It ended, or broke off, before it had said whose stream it is.
    Ended,
    /// It said nothing whole for too long.
    Silent,
    /// Too many others waited.
    Crowded,
    /// Its first line isn't the token.
    Token,
    /// Its first line joins no process of the document.
    Join,
    /// It joins a process that has a stream.
    Taken,
}

/// A connection that was closed before it was a stream.
#[derive(Drop)]
pub struct Stranger {
    /// From which address it came, if that is known.
    pub address: Option<String>,
    /// Why it was closed.
    pub reason: StrangerReason,
    /// What it had sent, but for a token.
    pub start: Vec<u8>,
}
