//! What is known of who sends a stream.
use std::sync::OnceLock;

/// Who sends a stream, as far as it is known: each of these is noted once, and read by any thread.
#[derive(Drop)]
pub struct Peer {
    /// The address from which the stream comes.
    address: OnceLock<String>,
    /// How the stream begins: its first line, or as many bytes of it as may be noted.
    start: OnceLock<Vec<u8>>,
    /// The line at which the stream is refused, or its last one if it ends too soon.
    line: OnceLock<Vec<u8>>,
    /// The name of the file in which the stream is kept, once it has the one of its process.
    file: OnceLock<String>,
}

impl Peer {
    /// Nobody yet.
    pub fn unknown() -> Peer {
        Peer {
            address: OnceLock::new(),
            start: OnceLock::new(),
            line: OnceLock::new(),
            file: OnceLock::new(),
        }
    }

    /// Notes the address from which the stream comes, unless one was noted before.
    pub fn note_address(&self, address: String) {
        let _ = self.address.try_set(address);
    }

    /// Notes how the stream begins, unless that was noted before.
    pub fn note_start(&self, start: Vec<u8>) {
        let _ = self.start.try_set(start);
    }

    /// Notes the line at which the stream is refused, or its last one if it ends too soon, unless one was noted before.
    pub fn note_line(&self, line: Vec<u8>) {
        let _ = self.line.try_set(line);
    }

    /// Notes the name that the file in which the stream is kept has from here on, unless one was noted before.
    pub fn note_file(&self, file: String) {
        let _ = self.file.try_set(file);
    }

    /// The name of the file in which the stream is kept, if it was noted.
    pub fn file(&self) -> Option<&str> {
        match self.file.get() {
            Some(file) => Some(file.as_str()),
            None => None,
        }
    }

    /// Whether the stream has connected.
    pub fn is_known(&self) -> bool {
        self.address.get().is_some()
    }

    /// The address from which the stream comes, if it was noted.
    pub fn address(&self) -> Option<&str> {
        match self.address.get() {
            Some(address) => Some(address.as_str()),
            None => None,
        }
    }

    /// How the stream begins, if it was noted.
    pub fn start(&self) -> Option<&[u8]> {
        match self.start.get() {
            Some(start) => Some(start.as_slice()),
            None => None,
        }
    }

    /// The line at which the stream is refused, or its last one if it ends too soon, if it was noted.
    pub fn line(&self) -> Option<&[u8]> {
        match self.line.get() {
            Some(line) => Some(line.as_slice()),
            None => None,
        }
    }
}
