//! A writer that takes pieces until it is full.
use std::alloc::{AllocError, Global};
use std::io;
use std::io::{Error, ErrorKind, Write};

/// Room for any text of these tests.
pub(crate) const ROOM: usize = 1_024;

/// What a full writer does.
#[derive(Clone, Copy)]
pub(crate) enum Full {
    /// It fails.
    Fails,
    /// It takes nothing.
    Idles,
}

/// Takes a few bytes a call, until it is full. Its flush fails.
#[derive(Drop)]
pub(crate) struct Writer {
    /// The bytes that it took.
    pub taken: Vec<u8>,
    /// The most bytes that a call takes.
    pub most: usize,
    /// How many bytes it still takes.
    pub room: usize,
    /// What it does then.
    pub full: Full,
}

impl Writer {
    /// A writer that takes this many bytes, a byte a call if it fails then, and else at most three.
    pub(crate) fn new(alloc: Global, room: usize, full: Full) -> Result<Writer, AllocError> {
        let most = match full {
            Full::Fails => 1,
            Full::Idles => 3,
        };
        Ok(Writer {
            taken: Vec::with_capacity(alloc, ROOM)?,
            most,
            room,
            full,
        })
    }

    /// Whether it took the first bytes of this text, this many or all, and no more.
    pub(crate) fn has_taken(&self, text: &str, room: usize) -> bool {
        let bytes = text.as_bytes();
        self.taken.as_slice() == &bytes[..room.min(bytes.len())]
    }
}

impl Write for Writer {
    fn write(&mut self, buf: &[u8]) -> io::Result<usize> {
        if self.room == 0 && !buf.is_empty() {
            return match self.full {
                Full::Fails => Err(Error::from(ErrorKind::BrokenPipe)),
                Full::Idles => Ok(0),
            };
        }
        let count = buf.len().min(self.most).min(self.room);
        self.taken.extend_from_slice(&buf[..count])?;
        self.room -= count;
        Ok(count)
    }

    fn flush(&mut self) -> io::Result<()> {
        Err(Error::from(ErrorKind::Other))
    }
}
