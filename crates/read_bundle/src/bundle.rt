//! Reads a bundle, step by step.
ghost use Rattle.read_bundle.specs.Cutting.{line_marks};
ghost use Rattle.read_bundle.specs.Moves.{Fills, Moves};
ghost use Rattle.read_bundle.specs.Steps.{HasCut, Steps, steps_left};
ghost use Rattle.read_bundle.specs.declared.fault.BundleFault.TheVariants as faults;
ghost use Rattle.read_bundle.specs.declared.next.Next.TheVariants as nexts;
ghost use Rattle.def_format.specs.Limits.{bundle_byte_limit};
ghost use Rattle.def_judgement.specs.Writes.{FailsAfter, IsBrokenOff, IsTooLong, Source};
ghost use Rattle.std.specs.Prelude.{◌≡◌, ◌<◌, ◌≤◌, ◌+◌, ◌-◌, ◌++◌, Err, IfOk, IfSome, List, ℕ, Option, [], OnOk, drop, false, length, take, true};

use super::cutter::{Cutter, Cutting, marks};
use super::{BundleFault, Next};
use def_format::BUNDLE_BYTE_LIMIT;
use pd_gather::ByteSource;
use std::alloc::{AllocError, Global};
use std::marker::Model;

/// How many bytes are asked for at a time.
const PIECE: usize = 32_768;

/// Room for the bytes of one read.
fn new_piece(alloc: Global, size: usize) -> Result<Vec<u8>, AllocError>
    ensures { IfOk result (λ piece. length piece.items ≡ size) }
{
    vec![in alloc; 0u8; size]
}

/// A bundle while it is read. It holds no more of it than one piece.
#[derive(Drop)]
pub struct Bundle {
    piece: Vec<u8>,
    held: u64,
    from: usize,
    start: usize,
    end: usize,
    count: usize,
    ended: bool,
    cutter: Cutter,
}

impl Model for Bundle {
    ghost use Rattle.std.specs.Prelude.{◌++◌, ◌-◌, ◌<◌, ◌≤◌, drop, length, take};
    ghost use Rattle.read_bundle.specs.Cutting.{line_marks};
    ghost use Rattle.read_bundle.specs.Steps.{State};
    ghost use Rattle.def_format.specs.Limits.{bundle_byte_limit};

    ghost Value = { State };

    ghost view = { λ b. record {
      cutter = b.cutter;
      buffer = take (b.end - b.start) (drop b.start b.piece.items);
      given = take b.held line_marks ++ take (b.start - b.from) (drop b.from b.piece.items);
      count = b.count;
      ended = b.ended;
    } };

    ghost invariant = { λ b. (b.from ≤ b.start) × (b.start ≤ b.end) × (b.end ≤ length b.piece.items)
        × (0 < length b.piece.items) × (b.count ≤ bundle_byte_limit) };
}

impl Bundle {
    /// A bundle of which no byte has come.
    ///
    /// # Errors
    /// If memory runs out.
    pub fn new(alloc: Global) -> Result<Bundle, AllocError>
        ensures fresh { IfOk result (λ bundle. (input : Source) → HasCut input input [] [] bundle) }
        ensures open { IfOk result (λ bundle. bundle.ended ≡ false) }
    {
        Ok(Bundle {
            piece: new_piece(alloc, PIECE)?,
            held: 0,
            from: 0,
            start: 0,
            end: 0,
            count: 0,
            ended: false,
            cutter: Cutter::Held(0),
        })
    }

    /// The bytes of the part by the last step: those that were held back, and those that come after them.
    pub fn given(&self) -> (&'static [u8], &[u8])
        ensures { self.now.given ≡ result.0.now ++ result.1.now }
    {
        (marks(self.held), &self.piece[self.from..self.start])
    }

    /// Reads the next bytes.
    ///
    /// # Errors
    /// `Long` if they are more than a bundle may have, and `Read`.
    fn fill<R: ByteSource>(&mut self, reader: &mut R) -> Result<(), BundleFault>
        requires empty { self.old.buffer ≡ [] }
        requires open { R.has_ended reader.old ≡ false }
        ensures fills { OnOk result (Fills (R.left reader.old) (R.left reader.new) self.old self.new) }
        ensures open { OnOk result (self.new.ended ≡ false → R.has_ended reader.new ≡ false) }
        ensures long { result ≡ Err faults.Long → IfSome (R.left reader.old).bytes (λ rest.
            bundle_byte_limit < self.old.count + length rest) }
        ensures cause { result ≡ Err faults.Read → FailsAfter (R.left reader.old) (λ rest. rest ≡ []) }
        ensures roomy { result ≡ Err faults.Memory → ⊥ }
    {
        let room = BUNDLE_BYTE_LIMIT - self.count;
        self.held = 0;
        self.from = 0;
        self.start = 0;
        self.end = 0;
        self.piece.truncate(room + 1);
        let count = reader
            .read_next(&mut self.piece)
            .map_err(|_| BundleFault::Read)?;
        if count > room {
            return Err(BundleFault::Long);
        }
        self.end = count;
        self.count += count;
        self.ended = count == 0;
        Ok(())
    }

    /// Takes the first bytes that were read and aren't cut yet.
    fn cut(&mut self) -> Next
        requires { 0 < length self.old.buffer }
        ensures { Moves self.old self.new result }
    {
        let mut cutter = self.cutter;
        let cut = cutter.cut(&self.piece[self.start..self.end]);
        self.cutter = cutter;
        match cut {
            Cutting::Hold => {
                self.held = 0;
                self.start += 1;
                self.from = self.start;
                Next::Bytes
            }
            Cutting::Separator => {
                self.held = 0;
                self.start += 1;
                self.from = self.start;
                Next::PartEnd
            }
            Cutting::Part(held, count) => {
                self.held = held;
                self.from = self.start;
                self.start += count;
                Next::Bytes
            }
        }
    }

    /// Takes the end of the input, before which some bytes may be held back.
    fn last(&mut self) -> Next
        requires empty { self.old.buffer ≡ [] }
        requires ended { self.old.ended ≡ true }
        ensures { Moves self.old self.new result }
    {
        let cutter = self.cutter;
        self.cutter = Cutter::Held(0);
        self.held = 0;
        self.from = self.start;
        match cutter {
            Cutter::Inside => Next::End,
            Cutter::Held(held) => {
                if held == 0 {
                    return Next::End;
                }
                if held < 3 {
                    self.held = held;
                    return Next::Bytes;
                }
                Next::PartEnd
            }
        }
    }

    /// Goes one step on, which reads at most once. It takes no memory.
    ///
    /// # Errors
    /// `Long` if the bundle has over 67,108,864 bytes, and `Read` if the read fails. The bundle isn't used again then.
    pub fn next<R: ByteSource>(&mut self, reader: &mut R) -> Result<Next, BundleFault>
        requires ready { self.old.ended ≡ false → R.has_ended reader.old ≡ false }
        ensures steps { IfOk result (Steps (R.left reader.old) (R.left reader.new) self.old self.new) }
        ensures less { IfOk result (λ next. (next ≡ nexts.End → ⊥) → steps_left self.new < steps_left self.old) }
        ensures ready { OnOk result (self.new.ended ≡ false → R.has_ended reader.new ≡ false) }
        ensures long { result ≡ Err faults.Long → (input : Source) (closed : List (List ℕ)) (part : List ℕ) →
            HasCut input (R.left reader.old) closed part self.old → IsTooLong input }
        ensures cause { result ≡ Err faults.Read → (input : Source) (closed : List (List ℕ)) (part : List ℕ) →
            HasCut input (R.left reader.old) closed part self.old → IsBrokenOff input }
        ensures roomy { result ≡ Err faults.Memory → ⊥ }
    {
        if self.start < self.end {
            return Ok(self.cut());
        }
        if self.ended {
            return Ok(self.last());
        }
        self.fill(reader)?;
        if self.start < self.end {
            return Ok(self.cut());
        }
        Ok(self.last())
    }
}
