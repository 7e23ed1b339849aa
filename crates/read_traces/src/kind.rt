//! The kind of an event whose id stands among those of other events.

/// What kind of event it is, with the bytes of its id.
#[derive(Clone, Copy)]
pub enum Kind<'a> {
    /// An event of its process alone.
    Local,
    /// It sends the message with this id, which has 1 to 64 bytes.
    Send(&'a [u8]),
    /// It receives the message with this id, which has 1 to 64 bytes.
    Recv(&'a [u8]),
}
