//! What was read of a source, for an explanation.
use std::alloc::Global;
use std::io;
use std::sync::OnceLock;

/// What was read of a source, as far as it is noted. Each part is noted once, and read by any thread.
#[derive(Drop)]
pub struct Note {
    /// The bytes that were asked for.
    bytes: OnceLock<Vec<u8>>,
    /// Why it can't be opened or read, in the words of the system.
    failure: OnceLock<String>,
}

impl Note {
    /// Of a source that wasn't opened yet.
    pub fn new() -> Note {
        Note {
            bytes: OnceLock::new(),
            failure: OnceLock::new(),
        }
    }

    /// Notes the bytes that were read, unless some were noted before.
    pub(crate) fn set_bytes(&self, bytes: Vec<u8>) {
        let _ = self.bytes.try_set(bytes);
    }

    /// Notes why it can't be opened or read, unless that was noted before, if there is memory for it.
    pub fn set_failure(&self, alloc: Global, error: &io::Error) {
        if let Ok(text) = format!(in alloc; "{error}") {
            let _ = self.failure.try_set(text);
        }
    }

    /// The bytes that were read, if they are noted.
    pub fn bytes(&self) -> Option<&[u8]> {
        match self.bytes.get() {
            Some(bytes) => Some(bytes.as_slice()),
            None => None,
        }
    }

    /// Why it can't be opened or read, in the words of the system, if that is so and noted.
    pub fn failure(&self) -> Option<&str> {
        match self.failure.get() {
            Some(text) => Some(text.as_str()),
            None => None,
        }
    }
}
