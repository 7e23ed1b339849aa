//! Makes calls of the system again that a signal interrupts.
use std::io;
use std::io::{ErrorKind, Read, Write};

/// A file or a stream of the system, of which each read and write that a signal interrupts is made again.
#[derive(Drop)]
pub struct Retried<S> {
    inner: S,
}

impl<S> Retried<S> {
    /// This file or stream.
    pub fn new(inner: S) -> Retried<S> {
        Retried { inner }
    }

    /// The file or stream itself.
    pub(crate) fn inner(&self) -> &S {
        &self.inner
    }
}

/// Whether a call failed because a signal interrupted it.
pub fn is_interrupted<T>(outcome: &io::Result<T>) -> bool {
    match outcome {
        Ok(_) => false,
        Err(error) => error.kind() == ErrorKind::Interrupted,
    }
}

/// What is said of a call that a signal interrupted each time.
pub fn interrupted() -> io::Error {
    io::Error::from(ErrorKind::Interrupted)
}

impl<S: Read> Read for Retried<S> {
    fn read(&mut self, piece: &mut [u8]) -> io::Result<usize> {
        for _turn in 0..u64::MAX {
            let outcome = self.inner.read(piece);
            if !is_interrupted(&outcome) {
                return outcome;
            }
        }
        Err(interrupted())
    }
}

impl<S: Write> Write for Retried<S> {
    fn write(&mut self, bytes: &[u8]) -> io::Result<usize> {
        for _turn in 0..u64::MAX {
            let outcome = self.inner.write(bytes);
            if !is_interrupted(&outcome) {
                return outcome;
            }
        }
        Err(interrupted())
    }

    fn flush(&mut self) -> io::Result<()> {
        for _turn in 0..u64::MAX {
            let outcome = self.inner.flush();
            if !is_interrupted(&outcome) {
                return outcome;
            }
        }
        Err(interrupted())
    }
}
