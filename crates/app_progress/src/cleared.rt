//! A place to write to, beside which no line of progress stands.
use super::screen::Screen;
use std::io;
use std::io::{Eprint, ErrorKind, Write};
use std::time::Clock;

/// Writes what it is given, once nothing is left of the line of a terminal that is written over, and unless the run is
/// ended before its time.
#[derive(Drop)]
pub struct Cleared<'a, W, R> {
    writer: W,
    screen: &'a Screen<'a, R>,
    /// Whether the run may be ended after each line that is written whole.
    is_by_lines: bool,
}

impl<'a, W, R> Cleared<'a, W, R> {
    /// Writes to this, beside this terminal. Once the run has begun to write, it isn't ended before its time; or, by
    /// lines, while a line isn't whole.
    pub fn new(writer: W, screen: &'a Screen<'a, R>, is_by_lines: bool) -> Cleared<'a, W, R> {
        Cleared {
            writer,
            screen,
            is_by_lines,
        }
    }
}

/// Whether a line ends with the last byte that was written of these.
fn is_whole(bytes: &[u8], written: &io::Result<usize>) -> bool {
    match written {
        Ok(count) => *count == bytes.len() && bytes.last() == Some(&b'\n'),
        Err(_) => false,
    }
}

impl<'a, W: Write, R: Clock + Eprint> Write for Cleared<'a, W, R> {
    ghost contents = { λ cleared. W.contents cleared.writer };

    fn write(&mut self, bytes: &[u8]) -> io::Result<usize> {
        if !self.screen.may_write() {
            return Err(io::Error::from(ErrorKind::TimedOut));
        }
        self.screen.clear();
        let written = self.writer.write(bytes);
        if self.is_by_lines && is_whole(bytes, &written) {
            self.screen.pause();
        }
        written
    }

    fn flush(&mut self) -> io::Result<()> {
        self.writer.flush()
    }
}
