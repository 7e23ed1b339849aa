//! The bytes of a piece that are not given yet.
ghost use Rattle.def_judgement.specs.Writes.{FailsAfter};
ghost use Rattle.pd_gather.specs.declared.read_fault.ReadFault.{ReadFault};
ghost use Rattle.read_lines.specs.Steps.{Fills, TakesPart};
ghost use Rattle.std.specs.Prelude.{◌≡◌, [], IfOk, IsOkUnless, OnErr, length, true, false};

use super::line::keep;
use memchr::memchr;
use pd_gather::{ByteSource, ReadFault};
use std::alloc::{AllocError, Global};
use std::marker::Model;

/// How many bytes are asked for at a time.
const PIECE: usize = 65_536;

/// Room for the bytes of one read.
fn new_piece(alloc: Global, size: usize) -> Result<Vec<u8>, AllocError>
    ensures { IfOk result (λ piece. length piece.items ≡ size) }
{
    vec![in alloc; 0u8; size]
}

/// The bytes of a piece that are not given yet. Contracts see these bytes.
#[derive(Drop)]
pub(crate) struct Held {
    piece: Vec<u8>,
    start: usize,
    end: usize,
}

impl Model for Held {
    ghost use Rattle.std.specs.Prelude.{◌-◌, ◌<◌, ◌≤◌, List, ℕ, drop, length, take};

    ghost Value = { List ℕ };

    ghost view = { λ h. take (h.end - h.start) (drop h.start h.piece.items) };

    ghost invariant = { λ h. (h.start ≤ h.end) × (h.end ≤ length h.piece.items) × (0 < length h.piece.items) };
}

impl Held {
    /// No byte, and room for those of one read.
    ///
    /// # Errors
    /// If memory runs out.
    pub(crate) fn new(alloc: Global) -> Result<Held, AllocError>
        ensures { IfOk result (λ held. held ≡ []) }
    {
        Ok(Held {
            piece: new_piece(alloc, PIECE)?,
            start: 0,
            end: 0,
        })
    }

    /// Reads the next bytes. The result is whether any came.
    ///
    /// # Errors
    /// `Read` if the read fails.
    pub(crate) fn fill<R: ByteSource>(&mut self, reader: &mut R) -> Result<bool, ReadFault>
        requires empty { self.old ≡ [] }
        requires open { R.has_ended reader.old ≡ false }
        ensures fills { IfOk result (λ more. Fills more (R.left reader.old) (R.left reader.new) self.new) }
        ensures open { IfOk result (λ more. more ≡ true → R.has_ended reader.new ≡ false) }
        ensures cause { OnErr result (FailsAfter (R.left reader.old) (λ rest. rest ≡ [])) }
        ensures err { IsOkUnless result ReadFault.Read }
    {
        self.start = 0;
        self.end = 0;
        let count = reader
            .read_next(&mut self.piece)
            .map_err(|_| ReadFault::Read)?;
        self.end = count;
        Ok(count != 0)
    }

    /// Takes the bytes before the first LF, and that LF, or all bytes if there is none. They are added to those that
    /// are kept of the line. The result is whether there is an LF. Each byte is looked at once.
    ///
    /// # Errors
    /// If memory runs out.
    pub(crate) fn take_part(&mut self, line: &mut Vec<u8>) -> Result<bool, AllocError>
        ensures { IfOk result (λ found. TakesPart found self.old self.new line.old.items line.new.items) }
    {
        match memchr(b'\n', &self.piece[self.start..self.end]) {
            Some(count) => {
                keep(line, &self.piece[self.start..self.start + count])?;
                self.start += count + 1;
                Ok(true)
            }
            None => {
                keep(line, &self.piece[self.start..self.end])?;
                self.start = self.end;
                Ok(false)
            }
        }
    }
}
