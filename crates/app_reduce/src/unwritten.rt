//! Which file or folder couldn't be written, and why.
use std::alloc::Global;
use std::io;

/// Whether a file or a folder of a session couldn't be written, and why.
#[derive(Drop)]
pub struct Unwritten {
    /// Whether one couldn't be.
    has_failed: bool,
    /// Which, and why, if there was memory for that.
    failure: Option<String>,
}

impl Unwritten {
    /// All could be written so far.
    pub fn new() -> Unwritten {
        Unwritten {
            has_failed: false,
            failure: None,
        }
    }

    /// Whether a file or a folder couldn't be written.
    pub(crate) fn has_failed(&self) -> bool {
        self.has_failed
    }

    /// Which couldn't be, and why, if there was memory for that.
    pub(crate) fn failure(&self) -> Option<&str> {
        match &self.failure {
            Some(text) => Some(text.as_str()),
            None => None,
        }
    }

    /// Notes that the folder of this name can't be written, for this reason.
    pub(crate) fn note_reason(&mut self, alloc: Global, name: &str, reason: &str) {
        self.has_failed = true;
        self.failure = format!(in alloc; "{name}: {reason}").ok();
    }

    /// Notes that the file or the folder of this name couldn't be written, and why.
    pub(crate) fn note(&mut self, alloc: Global, name: &str, error: &io::Error) {
        self.has_failed = true;
        self.failure = format!(in alloc; "{name}: {error}").ok();
    }
}
