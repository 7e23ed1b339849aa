//! The version of a document.

/// Which processes may receive a message.
#[derive(Clone, Copy, Debug, PartialEq, Eq)]
pub enum Version {
    /// One of them, once. A document without the field `version` has this version.
    One,
    /// Several of them, each once.
    Two,
}
