//! Outputs that take little, or fail.
use std::alloc::Global;
use std::io;
use std::io::{Error, ErrorKind, Write};

/// What an output takes.
#[derive(Clone, Copy, Drop)]
pub(crate) struct Limits {
    /// How many bytes at most a call takes.
    pub(crate) a_call: usize,
    /// How many bytes it has room for.
    pub(crate) room: usize,
    /// Whether it can be flushed.
    pub(crate) flushes: bool,
}

/// It takes all.
pub(crate) const AMPLE: Limits = Limits {
    a_call: usize::MAX,
    room: usize::MAX,
    flushes: true,
};

/// It takes a byte a call.
pub(crate) const SLOW: Limits = Limits { a_call: 1, ..AMPLE };

/// It takes 10 bytes, and then fails.
pub(crate) const SHORT: Limits = Limits { room: 10, ..AMPLE };

/// It takes nothing.
pub(crate) const FULL: Limits = Limits { room: 0, ..AMPLE };

/// It takes all, and fails as it is flushed.
pub(crate) const UNFLUSHED: Limits = Limits {
    flushes: false,
    ..AMPLE
};

/// An output with such limits.
#[derive(Drop)]
pub(crate) struct Sink {
    limits: Limits,
    pub(crate) taken: Vec<u8>,
}

impl Sink {
    /// One that has taken nothing yet.
    pub(crate) fn new(alloc: Global, limits: Limits) -> Sink {
        Sink {
            limits,
            taken: Vec::new(alloc),
        }
    }
}

impl Write for Sink {
    fn write(&mut self, bytes: &[u8]) -> io::Result<usize> {
        if self.limits.room == 0 {
            return Err(Error::from(ErrorKind::BrokenPipe));
        }
        let count = bytes.len().min(self.limits.a_call).min(self.limits.room);
        self.taken.extend_from_slice(&bytes[..count])?;
        self.limits.room -= count;
        Ok(count)
    }

    fn flush(&mut self) -> io::Result<()> {
        if self.limits.flushes {
            Ok(())
        } else {
            Err(Error::from(ErrorKind::BrokenPipe))
        }
    }
}
