//! A file that is shown while it is read.
ghost use Rattle.std.specs.Prelude.{◌≡◌};

use super::screen::Screen;
use pd_engine::ByteSource;
use std::io;
use std::io::Eprint;
use std::time::Clock;

/// Gives the bytes of a source as they are, and counts them on a terminal.
pub struct ShownFile<'a, F: Drop, R: Clock + Eprint> {
    /// Where the bytes come from.
    pub file: F,
    /// How many bytes it has, or 0 if that isn't known.
    size: u64,
    /// Whether a byte of it was asked for.
    is_begun: bool,
    screen: &'a Screen<'a, R>,
}

impl<'a, F: Drop, R: Clock + Eprint> ShownFile<'a, F, R> {
    /// A source of this many bytes, or 0 if that isn't known.
    pub fn new(file: F, size: u64, screen: &'a Screen<'a, R>) -> ShownFile<'a, F, R>
        ensures { result.file ≡ file }
    {
        ShownFile {
            file,
            size,
            is_begun: false,
            screen,
        }
    }
}

impl<'a, F: Drop, R: Clock + Eprint> Drop for ShownFile<'a, F, R> {
    fn drop(self) {
        let Self {
            file: _,
            size: _,
            is_begun,
            screen,
        } = self;
        if is_begun {
            screen.end();
        }
    }
}

impl<'a, F: ByteSource + Drop, R: Clock + Eprint> ByteSource for ShownFile<'a, F, R> {
    ghost left = { λ shown. F.left shown.file };

    ghost has_ended = { λ shown. F.has_ended shown.file };

    fn read_next(&mut self, piece: &mut [u8]) -> io::Result<usize> {
        if !self.is_begun {
            self.is_begun = true;
            self.screen.begin(self.size);
        }
        let read = self.file.read_next(piece);
        if let Ok(count) = &read {
            self.screen.advance(*count as u64);
        }
        read
    }
}
