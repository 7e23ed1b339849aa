//! The reader of a stream.
ghost use Rattle.std.specs.Bool.{OnFalse, OnTrue};
ghost use Rattle.std.specs.Prelude.{◌≡◌, ℕ, false, List, [], ◌++◌, length, IfOk, IsOk, OnErr, OnOk, Ok, Some};
ghost use Rattle.def_format.specs.Lines.{has_line_feed};
ghost use Rattle.def_format.specs.Names.{ProcessNames};
ghost use Rattle.def_format.specs.Readings.{Ending, Ended, Failed, IsClosed, NothingMore, Open, result_of, state};
ghost use Rattle.def_format.specs.ReadingLaws.{FitsSession, process_of};
ghost use Rattle.pd_spec.specs.Views.{document_view};
ghost use Rattle.pd_events.specs.Progress.{stop_of_fault};
ghost use Rattle.pd_events.specs.Reads.{Reads, stop_of_frame};
ghost use Rattle.read_traces.specs.Views.{trace_view};
ghost use Rattle.pd_events.specs.Views.{result_view, state_view};

use super::progress::{Phase, Progress};
use super::{StreamFault, StreamKind, StreamState};
use def_format::EVENT_LIMIT;
use pd_frames::{FrameFault, Framer, has_line_feed};
use pd_spec::Spec;
use read_traces::{Events, Trace};
use std::alloc::{AllocError, Global};
use std::marker::Model;

/// The fault of a stream whose bytes have this one.
fn fault_of(fault: FrameFault) -> StreamFault
    ensures { stop_of_fault (Some result) ≡ stop_of_frame (Some fault) }
{
    match fault {
        FrameFault::LineTooLong(line) => StreamFault {
            line,
            kind: StreamKind::LineTooLong,
        },
        FrameFault::StreamTooLong(line) => StreamFault {
            line,
            kind: StreamKind::StreamTooLong,
        },
    }
}

/// The same of the fault, if there is one.
fn faults_of(fault: Option<FrameFault>) -> Option<StreamFault>
    ensures { stop_of_fault result ≡ stop_of_frame fault }
{
    match fault {
        Some(fault) => Some(fault_of(fault)),
        None => None,
    }
}

/// Reads a stream that comes in pieces: the records of its lines, up to the end line or the first fault.
#[derive(Drop)]
pub struct TraceReader<'spec> {
    alloc: Global,
    spec: &'spec Spec,
    framer: Framer,
    progress: Progress,
}

impl<'spec> Model for TraceReader<'spec> {
    ghost use Rattle.pd_events.specs.Reads.{ReaderState};

    ghost Value = { ReaderState };

    ghost use Rattle.pd_spec.specs.Views.{document_view};
    ghost use Rattle.pd_events.specs.Progress.{reading_view};

    ghost view = { λ r. record {
      names = (document_view r.spec.now).names;
      framer = r.framer;
      reading = reading_view r.progress.phase r.progress.events;
    } };

    ghost use Rattle.std.specs.Prelude.{◌≡◌, false};
    ghost use Rattle.def_format.specs.Readings.{NothingMore};
    ghost use Rattle.pd_events.specs.Progress.{stop_of};

    ghost invariant = { λ r. stop_of r.progress.phase ≡ NothingMore → r.framer.finished ≡ false };
}

impl<'spec> TraceReader<'spec> {
    /// A reader of a stream of which no byte has come. It takes no memory.
    pub fn new(alloc: Global, spec: &'spec Spec) -> TraceReader<'spec>
        ensures { Reads result (document_view spec.now).names Open [] }
    {
        TraceReader {
            alloc,
            spec,
            framer: Framer::new(alloc),
            progress: Progress {
                phase: Phase::Fresh,
                events: Events::new(alloc),
            },
        }
    }

    /// Whether the end line or a fault has come, or the end or a failed read was reported.
    pub fn is_closed(&self) -> bool
        ensures yes { OnTrue result (IsClosed self.now.reading.stop) }
        ensures no { OnFalse result (self.now.reading.stop ≡ NothingMore) }
    {
        self.progress.phase.is_closed()
    }

    /// How far the stream is.
    pub fn state(&self) -> StreamState
        ensures { state_view result ≡ state self.now.reading }
    {
        match self.progress.phase {
            Phase::Fresh => StreamState::Fresh,
            Phase::Joined(_) => StreamState::Joined,
            Phase::Ended(_) => StreamState::Ended,
            Phase::Faulted(_, _) => StreamState::Faulted,
        }
    }

    /// The process that has joined, counted from 0, if one has.
    pub fn process(&self) -> Option<usize>
        ensures { result ≡ process_of self.now.reading.joined }
    {
        self.progress.phase.join().map(|join| join.process)
    }

    /// How many events there are so far.
    pub fn events(&self) -> u64
        ensures { result ≡ length self.now.reading.events }
    {
        self.progress.events.len() as u64
    }

    /// Takes the next bytes of the stream. A closed reader takes no memory and stays as it is.
    ///
    /// # Errors
    /// If memory runs out; the reader is then as it was.
    pub fn feed(&mut self, piece: &[u8]) -> Result<(), AllocError>
        ensures reads { OnOk result ((names : List ProcessNames) (bytes : List ℕ) →
            Reads self.old names Open bytes → Reads self.new names Open (bytes ++ piece.now)) }
        ensures closed { IsClosed self.old.reading.stop → IsOk result }
        ensures stays { IsClosed self.old.reading.stop → self.new ≡ self.old }
        ensures err { OnErr result (self.new ≡ self.old) }
    {
        def_format::closed_stays();
        def_format::readings_go_on();
        if self.is_closed() {
            return Ok(());
        }
        if !has_line_feed(piece) {
            return self.feed_part(piece);
        }
        let mut framer = self.framer.copy()?;
        let batch = framer.feed(piece)?;
        self.progress.take_lines(
            self.alloc,
            self.spec,
            EVENT_LIMIT,
            &batch.lines,
            faults_of(batch.fault),
        )?;
        self.framer = framer;
        Ok(())
    }

    /// The same of bytes without an LF, so that no line ends.
    fn feed_part(&mut self, piece: &[u8]) -> Result<(), AllocError>
        requires open { self.old.reading.stop ≡ NothingMore }
        requires part { has_line_feed piece.now ≡ false }
        ensures reads { OnOk result ((names : List ProcessNames) (bytes : List ℕ) →
            Reads self.old names Open bytes → Reads self.new names Open (bytes ++ piece.now)) }
        ensures err { OnErr result (self.new ≡ self.old) }
    {
        def_format::lines_grow();
        def_format::readings_go_on();
        let batch = self.framer.feed(piece)?;
        self.progress.end_by(faults_of(batch.fault));
        Ok(())
    }

    /// Takes the end of the input, after which the reader is closed. A closed reader takes no memory and stays as it
    /// is.
    ///
    /// # Errors
    /// If memory runs out; the reader is then as it was.
    pub fn end(&mut self) -> Result<(), AllocError>
        ensures reads { OnOk result ((names : List ProcessNames) (bytes : List ℕ) →
            Reads self.old names Open bytes → Reads self.new names Ended bytes) }
        ensures closes { OnOk result (IsClosed self.new.reading.stop) }
        ensures closed { IsClosed self.old.reading.stop → IsOk result }
        ensures stays { IsClosed self.old.reading.stop → self.new ≡ self.old }
        ensures err { OnErr result (self.new ≡ self.old) }
    {
        def_format::closed_stays();
        def_format::readings_go_on();
        if self.is_closed() {
            return Ok(());
        }
        let mut framer = self.framer.copy()?;
        let batch = framer.finish()?;
        let unended = StreamFault {
            line: framer.line(),
            kind: StreamKind::Unended,
        };
        self.progress.take_lines(
            self.alloc,
            self.spec,
            EVENT_LIMIT,
            &batch.lines,
            Some(unended),
        )?;
        self.framer = framer;
        Ok(())
    }

    /// Takes it that a read of the input failed, after which the reader is closed. A closed reader stays as it is. It
    /// takes no memory.
    pub fn fail(&mut self)
        ensures reads { (names : List ProcessNames) (bytes : List ℕ) →
            Reads self.old names Open bytes → Reads self.new names Failed bytes }
        ensures closes { IsClosed self.new.reading.stop }
        ensures stays { IsClosed self.old.reading.stop → self.new ≡ self.old }
    {
        def_format::closed_stays();
        def_format::readings_go_on();
        if self.is_closed() {
            return;
        }
        let failed = StreamFault {
            line: self.framer.line(),
            kind: StreamKind::Read,
        };
        self.progress.end_by(Some(failed));
    }

    /// The trace of a stream that has its end line, otherwise its fault. The reader is closed. It takes no memory.
    ///
    /// # Errors
    /// The first fault of the stream.
    pub fn outcome(self) -> Result<Trace, StreamFault>
        requires { IsClosed self.reading.stop }
        ensures value { Some (result_view result) ≡ result_of self.entry.reading }
        ensures fits { IfOk result (λ trace. (names : List ProcessNames) (ending : Ending) (bytes : List ℕ) →
            Reads self.entry names ending bytes → FitsSession names (trace_view trace)) }
    {
        def_format::traces_fit();
        let Progress { phase, events } = self.progress;
        match phase {
            Phase::Ended(join) => Ok(Trace {
                process: join.process,
                join_line: join.line,
                events,
            }),
            Phase::Faulted(_, fault) => Err(fault),
            Phase::Fresh | Phase::Joined(_) => unreachable!(),
        }
    }
}
