//! Where connections are accepted.

/// Where connections are accepted.
#[derive(Clone, Copy)]
pub enum Place<'a> {
    /// On this port, or on any that is free if it is 0, of the IP address of this text, or of this machine alone
    /// without one.
    Port(Option<&'a str>, u16),
    /// On the Unix socket of this path.
    Socket(&'a str),
}
