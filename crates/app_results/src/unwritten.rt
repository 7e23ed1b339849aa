//! Which file or folder couldn't be written first, and why.
use std::alloc::Global;
use std::io;

/// Whether something couldn't be written, what was the first, and why.
#[derive(Drop)]
pub(crate) struct Unwritten {
    /// Whether something couldn't be.
    has_failed: bool,
    /// What was the first, and why, if there was memory for that.
    failure: Option<String>,
}

impl Unwritten {
    /// All could be written so far.
    pub(crate) fn new() -> Unwritten {
        Unwritten {
            has_failed: false,
            failure: None,
        }
    }

    /// Whether something couldn't be written.
    pub(crate) fn has_failed(&self) -> bool {
        self.has_failed
    }

    /// What couldn't be written first, and why, if there was memory for that.
    pub(crate) fn failure(&self) -> Option<&str> {
        match &self.failure {
            Some(text) => Some(text.as_str()),
            None => None,
        }
    }

    /// Notes that the file or the folder of this name couldn't be written, and why, if it is the first.
    pub(crate) fn note(&mut self, alloc: Global, name: &str, why: &str) {
        if !self.has_failed {
            self.failure = format!(in alloc; "{name}: {why}").ok();
        }
        self.has_failed = true;
    }

    /// The same of what the system says.
    pub(crate) fn note_error(&mut self, alloc: Global, name: &str, error: &io::Error) {
        match format!(in alloc; "{error}") {
            Ok(why) => self.note(alloc, name, &why),
            Err(_) => self.note(alloc, name, ""),
        }
    }
}
