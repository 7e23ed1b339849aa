//! The lines of a source.
ghost use Rattle.read_lines.specs.GivenLines.{BreaksOff, Gives, HasLines};
ghost use Rattle.pd_gather.specs.declared.read_fault.ReadFault.{ReadFault};
ghost use Rattle.def_judgement.specs.Writes.{Source};
ghost use Rattle.std.specs.Prelude.{◌≡◌, [], Err, IfOk, List, ℕ, false};

use super::held::Held;
use super::line::{Line, last_line, line_of};
use pd_gather::{ByteSource, ReadFault};
use std::alloc::{AllocError, Global};
use std::marker::Model;

/// The lines of a source, one after another. Of the source no more is held than one piece.
#[derive(Drop)]
pub struct Lines<R: ByteSource + Drop> {
    reader: R,
    held: Held,
    ended: bool,
}

impl<R: ByteSource + Drop> Model for Lines<R> {
    ghost use Rattle.read_lines.specs.GivenLines.{State};
    ghost use Rattle.std.specs.Prelude.{◌≡◌, false};

    ghost Value = { State };

    ghost view = { λ l. record { left = R.left l.reader; held = l.held; ended = l.ended } };

    ghost invariant = { λ l. l.ended ≡ false → R.has_ended l.reader ≡ false };
}

impl<R: ByteSource + Drop> Lines<R> {
    /// The lines of this source, of which none is read yet.
    ///
    /// # Errors
    /// If memory runs out.
    pub fn new(alloc: Global, reader: R) -> Result<Lines<R>, AllocError>
        requires { R.has_ended reader ≡ false }
        ensures { IfOk result (λ lines. HasLines (R.left reader) [] lines) }
    {
        Ok(Lines {
            reader,
            held: Held::new(alloc)?,
            ended: false,
        })
    }

    /// Whether the source gave its end. The line that was given last, if it has come with it, has no LF.
    pub fn has_ended(&self) -> bool
        ensures { result ≡ self.now.ended }
    {
        self.ended
    }

    /// The next line, or none if all lines were given. What stands after the last LF is a line if it isn't empty. The
    /// source isn't asked again after its end.
    ///
    /// # Errors
    /// `Read` if a read fails, and `Memory`. The lines aren't used again then.
    pub fn next(&mut self, alloc: Global) -> Result<Option<Line>, ReadFault>
        ensures gives { IfOk result (λ found. Gives found self.old self.new) }
        ensures cause { result ≡ Err ReadFault.Read → (input : Source) (lines : List (List ℕ)) →
            HasLines input lines self.old → BreaksOff input lines }
    {
        if self.ended {
            return Ok(None);
        }
        let mut line = Vec::new(alloc);
        'pieces: for _ in 0..u64::MAX {
            if self.held.take_part(&mut line)? {
                return Ok(Some(line_of(line)));
            }
            self.ended = true;
            if !self.held.fill(&mut self.reader)? {
                return Ok(last_line(line));
            }
            self.ended = false;
        }
        Err(ReadFault::Memory)
    }
}
