//! What can come of a stream.

/// One input of a stream.
#[derive(Clone, Copy, Debug)]
pub enum Input<'a> {
    /// The next bytes.
    Piece(&'a [u8]),
    /// No more bytes come.
    End,
    /// A read of the stream failed.
    Failed,
}
