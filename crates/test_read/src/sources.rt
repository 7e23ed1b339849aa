//! Readers that tests are given.
use std::io;
use std::io::{Error, ErrorKind, Read};

/// Gives its bytes one at a time, and then fails.
#[derive(Drop)]
pub(crate) struct SingleBytes<'a> {
    /// The bytes that are left.
    pub bytes: &'a [u8],
    /// How many calls there have been.
    pub calls: u32,
}

impl Read for SingleBytes<'_> {
    fn read(&mut self, buf: &mut [u8]) -> io::Result<usize> {
        self.calls = self.calls.saturating_add(1);
        if self.bytes.is_empty() {
            return Err(Error::from(ErrorKind::Other));
        }
        let count = buf.len().min(1);
        self.bytes.read(&mut buf[..count])
    }
}

/// Gives the same byte and has no end.
#[derive(Drop)]
pub(crate) struct Endless(pub u8);

impl Read for Endless {
    fn read(&mut self, buf: &mut [u8]) -> io::Result<usize> {
        buf.fill(self.0);
        Ok(buf.len())
    }
}
