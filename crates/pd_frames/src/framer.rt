//! The framer itself.
ghost use Rattle.def_format.specs.Lines.{IsBatch, finished_lines, frame_fault, open_lines};
ghost use Rattle.pd_frames.specs.State.{Stands, finished_state, line_to_come};
ghost use Rattle.pd_frames.specs.Views.{IsFaultAlone, frame_faults_view, lines_view};
ghost use Rattle.std.specs.Bool.{OnTrue, OnFalse};
ghost use Rattle.std.specs.Prelude.{◌≡◌, ℕ, Bool, true, false, List, [], ◌++◌, ◌+◌, ◌<◌, ◌⊎◌, None, length, if◌then◌else◌, IfOk, IsOkAnd, IsSome, OnErr, OnOk};

use super::cut::{Remainder, push_line, take_lines};
use super::line::{Batch, FrameFault};
use std::alloc::{AllocError, Global};
use std::marker::Model;

/// Takes a stream's bytes in pieces, and gives the lines that have ended.
#[derive(Drop)]
pub struct Framer {
    alloc: Global,
    rest: Vec<u8>,
    line: u64,
    total: u64,
    fault: Option<FrameFault>,
    finished: bool,
}

impl Model for Framer {
    ghost use Rattle.std.specs.Prelude.{length};
    ghost use Rattle.pd_frames.specs.Cuts.{Fits};
    ghost use Rattle.pd_frames.specs.Views.{frame_faults_view};
    ghost use Rattle.pd_frames.specs.State.{State};

    ghost Value = { State };

    ghost view = { λ f. record {
      rest = f.rest.items;
      line = f.line;
      total = f.total;
      fault = frame_faults_view f.fault;
      finished = f.finished;
    } };

    ghost invariant = { λ f. Fits (length f.rest.items) f.line f.total };
}

/// Makes the rest that of a new line, or lengthens it by the tail.
fn set_rest(alloc: Global, rest: &mut Vec<u8>, is_new: bool, tail: &[u8]) -> Result<(), AllocError>
    ensures ok { OnOk result (rest.new.items ≡ (if is_new then tail.now else rest.old.items ++ tail.now)) }
    ensures err { OnErr result (rest.new.items ≡ rest.old.items) }
{
    if is_new {
        *rest = Vec::from_slice(alloc, tail)?;
        Ok(())
    } else {
        rest.extend_from_slice(tail)
    }
}

impl Framer {
    /// A framer of a stream of which no byte has come. It takes no memory.
    pub fn new(alloc: Global) -> Framer
        ensures { Stands result [] false }
    {
        Framer {
            alloc,
            rest: Vec::new(alloc),
            line: 1,
            total: 0,
            fault: None,
            finished: false,
        }
    }

    /// Whether `finish` has taken the end of the stream.
    pub fn is_finished(&self) -> bool
        ensures { result ≡ self.now.finished }
    {
        self.finished
    }

    /// The number of the line in which the next byte would stand, counted from 1; after `finish` one more than there
    /// are lines, the blank ones counted; after a fault the number of the fault's line.
    pub fn line(&self) -> u64
        ensures { (bytes : List ℕ) (ended : Bool) → Stands self.now bytes ended → result ≡ line_to_come bytes ended }
    {
        match self.fault {
            None => self.line,
            Some(fault) => fault.line(),
        }
    }

    /// A framer that stands for the same bytes, finished where this one is.
    ///
    /// # Errors
    /// If memory runs out.
    pub fn copy(&self) -> Result<Framer, AllocError>
        ensures { IfOk result (λ framer. framer ≡ self.now) }
    {
        let rest = Vec::from_slice(self.alloc, &self.rest)?;
        Ok(Framer {
            alloc: self.alloc,
            rest,
            line: self.line,
            total: self.total,
            fault: self.fault,
            finished: self.finished,
        })
    }

    /// Takes the next bytes of the stream, and gives the lines that end in them. After a fault there is no line, but
    /// the same fault, and no memory is taken.
    ///
    /// # Errors
    /// If memory runs out; the framer is then as it was.
    pub fn feed<'piece>(&mut self, piece: &'piece [u8]) -> Result<Batch<'piece>, AllocError>
        requires { self.old.finished ≡ false }
        ensures stands { OnOk result
            ((bytes : List ℕ) → Stands self.old bytes false → Stands self.new (bytes ++ piece.now) false) }
        ensures batch { IfOk result (λ batch. (bytes : List ℕ) → Stands self.old bytes false →
            IsBatch bytes piece.now (lines_view batch.lines.items) (frame_faults_view batch.fault)) }
        ensures err { OnErr result (self.new ≡ self.old) }
        ensures fault { IfOk result (λ batch. frame_faults_view batch.fault ≡ self.new.fault) }
        ensures faulty { IsSome self.old.fault → IsOkAnd result (IsFaultAlone self.old.fault) }
        ensures stays { IsSome self.old.fault → self.new ≡ self.old }
        ensures unfinished { self.new.finished ≡ false }
    {
        def_format::fault_stays();
        if self.fault.is_some() {
            return Ok(Batch {
                lines: Vec::new(self.alloc),
                fault: self.fault,
            });
        }
        let Remainder {
            lines,
            fault,
            kept,
            tail,
            line,
            total,
        } = take_lines(self.alloc, &self.rest, self.line, self.total, piece)?;
        if fault.is_some() {
            self.fault = fault;
            return Ok(Batch { lines, fault });
        }
        let has_ended = kept.is_empty();
        set_rest(self.alloc, &mut self.rest, has_ended, tail)?;
        self.line = line;
        self.total = total + tail.len() as u64;
        Ok(Batch { lines, fault })
    }

    /// Whether the end of the stream would be that of a line.
    fn has_last_line(&self) -> bool
        ensures yes { OnTrue result ((self.now.fault ≡ None) × (0 < length self.now.rest)) }
        ensures no { OnFalse result (IsSome self.now.fault ⊎ (length self.now.rest ≡ 0)) }
    {
        self.fault.is_none() && !self.rest.is_empty()
    }

    /// Takes the end of the stream. A rest that isn't empty is the last line. After a fault there is no line, but the
    /// same fault. Memory is taken for a last line alone.
    ///
    /// # Errors
    /// If memory runs out; the framer is then as it was.
    pub fn finish<'piece>(&mut self) -> Result<Batch<'piece>, AllocError>
        requires { self.old.finished ≡ false }
        ensures stands { OnOk result ((bytes : List ℕ) → Stands self.old bytes false → Stands self.new bytes true) }
        ensures lines { IfOk result (λ batch. (bytes : List ℕ) → Stands self.old bytes false →
            finished_lines bytes ≡ open_lines bytes ++ lines_view batch.lines.items) }
        ensures fault { IfOk result (λ batch. (bytes : List ℕ) → Stands self.old bytes false →
            frame_fault bytes ≡ frame_faults_view batch.fault) }
        ensures same_fault { IfOk result (λ batch. frame_faults_view batch.fault ≡ self.old.fault) }
        ensures finished { OnOk result ((self.new.finished ≡ true) × (self.new.fault ≡ self.old.fault)) }
        ensures err { OnErr result (self.new ≡ self.old) }
        ensures faulty { IsSome self.old.fault → IsOkAnd result (IsFaultAlone self.old.fault) }
        ensures empty { length self.old.rest ≡ 0 → IsOkAnd result (λ batch. batch.lines.items ≡ []) }
        ensures moved { (IsSome self.old.fault ⊎ (length self.old.rest ≡ 0)) → self.new ≡ finished_state self.old }
    {
        def_format::rest_is_last();
        let mut lines = Vec::new(self.alloc);
        if self.has_last_line() {
            push_line(self.alloc, &mut lines, self.line, &self.rest, &[])?;
            self.rest = Vec::new(self.alloc);
            self.line += 1;
            self.finished = true;
            return Ok(Batch { lines, fault: None });
        }
        self.finished = true;
        Ok(Batch {
            lines,
            fault: self.fault,
        })
    }
}
