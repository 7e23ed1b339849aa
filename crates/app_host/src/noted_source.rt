//! A source of which it is noted what is read.
ghost use Rattle.std.specs.Prelude.{◌≡◌};

use super::note::Note;
use pd_engine::{ByteSource, StreamFault};
use std::alloc::Global;
use std::io;

/// Gives the bytes of a source as they are. Once it is dropped it is noted which these were, and once a read fails why,
/// if that is wanted.
pub struct NotedSource<'a, R: Drop> {
    /// Where the bytes come from.
    pub source: R,
    /// Where it is noted; nowhere, if that isn't wanted, or there was no memory for some of the bytes.
    note: Option<&'a Note>,
    /// The bytes until now.
    read: Vec<u8>,
}

impl<'a, R: Drop> NotedSource<'a, R> {
    /// This source, noted there, if that is wanted.
    pub fn new(alloc: Global, source: R, note: Option<&'a Note>) -> NotedSource<'a, R>
        ensures { result.source ≡ source }
    {
        NotedSource {
            source,
            note,
            read: Vec::new(alloc),
        }
    }

    /// The bytes until now, if they are noted.
    pub fn bytes(&self) -> &[u8] {
        &self.read
    }

    /// Adds the bytes that a read put into the piece, or notes why it failed.
    fn add(&mut self, outcome: &io::Result<usize>, piece: &[u8])
        ensures { self.new.source ≡ self.old.source }
    {
        let Some(note) = self.note else {
            return;
        };
        match outcome {
            Ok(count) => {
                let bytes = piece.get(..*count).unwrap_or(&[]);
                if self.read.extend_from_slice(bytes).is_err() {
                    self.note = None;
                }
            }
            Err(error) => note.set_failure(*self.read.allocator(), error),
        }
    }
}

impl<'a, R: Drop> Drop for NotedSource<'a, R> {
    fn drop(self) {
        let Self {
            source: _,
            note,
            read,
        } = self;
        if let Some(note) = note {
            note.set_bytes(read);
        }
    }
}

impl<'a, R: ByteSource + Drop> ByteSource for NotedSource<'a, R> {
    ghost left = { λ noted. R.left noted.source };

    ghost has_ended = { λ noted. R.has_ended noted.source };

    fn read_next(&mut self, piece: &mut [u8]) -> io::Result<usize> {
        let outcome = self.source.read_next(piece);
        self.add(&outcome, piece);
        outcome
    }

    fn on_fault(&self, fault: StreamFault) {
        self.source.on_fault(fault);
    }
}
