//! The streams while they are read.
ghost use Rattle.pd_events.specs.Reads.{ReaderState, Reads};
ghost use Rattle.def_judgement.specs.Judgements.{AreResultsOf};
ghost use Rattle.def_format.specs.Limits.{stream_count_limit};
ghost use Rattle.def_format.specs.Names.{ProcessNames};
ghost use Rattle.def_format.specs.Readings.{IsClosed};
ghost use Rattle.def_format.specs.Sessions.{Broken, Interleaving};
ghost use Rattle.pd_gather.specs.Taken.{HasClosed, HasTaken, OrderDoesntMatter, Takes, raw_streams};
ghost use Rattle.pd_gather.specs.Views.{ReadingFits, input_view, results_view};
ghost use Rattle.pd_spec.specs.Views.{document_view};
ghost use Rattle.std.specs.Bool.{OnFalse, OnTrue};
ghost use Rattle.std.specs.Prelude.{◌≡◌, ◌<◌, ◌≤◌, ◌++◌, ◌∷◌, [], List, All, IfOk, IsOk, OnErr, OnOk, Some, length, slice_get};

use super::{Gathered, Input};
use pd_events::{StreamFault, TraceReader};
use pd_spec::Spec;
use read_traces::Trace;
use std::alloc::{AllocError, Global};
use std::marker::Model;

/// The readers of all streams of a session. A clause sees them as the list of what each shows of itself.
#[derive(Drop)]
pub struct Core<'a> {
    readers: Vec<TraceReader<'a>>,
    room: Vec<Result<Trace, StreamFault>>,
}

impl<'a> Model for Core<'a> {
    ghost use Rattle.std.specs.Prelude.{◌≡◌, ◌≤◌, List, []};
    ghost use Rattle.std.specs.Vec.{vec_capacity, vec_len};
    ghost use Rattle.pd_events.specs.Reads.{ReaderState};

    ghost Value = { List ReaderState };

    ghost view = { λ c. c.readers.items };

    ghost invariant = { λ c. (c.room.items ≡ []) × (vec_len c.readers ≤ vec_capacity c.room) };
}

/// What the streams give depends on the bytes and the ending of each, and on no order in which their inputs come.
pub fn order_doesnt_matter()
    ensures { OrderDoesntMatter }
{
    def_judgement::one_list_of_results();
}

/// Takes one input of the reader's stream.
pub(super) fn take_input(reader: &mut TraceReader<'_>, input: Input<'_>) -> Result<(), AllocError>
    ensures takes { OnOk result (Takes reader.old reader.new (input_view input.entry)) }
    ensures err { OnErr result (reader.new ≡ reader.old) }
    ensures closed { IsClosed reader.old.reading.stop → IsOk result }
    ensures stays { IsClosed reader.old.reading.stop → reader.new ≡ reader.old }
    ensures failed { input_view input.entry ≡ Broken → IsOk result }
{
    match input {
        Input::Piece(bytes) => reader.feed(bytes),
        Input::End => reader.end(),
        Input::Failed => {
            reader.fail();
            Ok(())
        }
    }
}

impl<'a> Core<'a> {
    /// The readers of `n` streams of a session with this document.
    ///
    /// # Errors
    /// If memory runs out.
    pub fn new(alloc: Global, n: usize, spec: &'a Spec) -> Result<Core<'a>, AllocError>
        requires { n ≤ stream_count_limit }
        ensures streams { IfOk result (λ core. length core ≡ n) }
        ensures none { IfOk result (λ core. HasTaken core (document_view spec.now).names []) }
    {
        let mut readers = Vec::with_capacity(alloc, n)?;
        for _ in 0..n {
            readers.push(TraceReader::new(alloc, spec))?;
        }
        let room = Vec::with_capacity(alloc, n)?;
        Ok(Core { readers, room })
    }

    /// Takes one input of a stream, which is counted from 0. What comes after the stream's end or a failed read doesn't
    /// count. A closed stream takes no memory, nor does a failed read.
    ///
    /// # Errors
    /// If memory runs out; everything is then as it was.
    pub fn step(&mut self, stream: usize, input: Input<'_>) -> Result<(), AllocError>
        requires { stream < length self.old }
        ensures taken { OnOk result ((names : List ProcessNames) (steps : Interleaving) →
            HasTaken self.old names steps → HasTaken self.new names (steps ++ (stream, input_view input.entry) ∷ [])) }
        ensures streams { length self.new ≡ length self.old }
        ensures err { OnErr result (self.new ≡ self.old) }
        ensures closed { (reader : ReaderState) → slice_get self.old stream ≡ Some reader → HasClosed reader →
            IsOk result }
        ensures stays { (reader : ReaderState) → slice_get self.old stream ≡ Some reader → HasClosed reader →
            self.new ≡ self.old }
        ensures failed { input_view input.entry ≡ Broken → IsOk result }
    {
        take_input(&mut self.readers[stream], input)
    }

    /// Whether each stream has its end line or a fault.
    pub fn closed(&self) -> bool
        ensures yes { OnTrue result (All HasClosed self.now) }
        ensures no { OnFalse result (All HasClosed self.now → ⊥) }
    {
        self.readers.iter().all(|reader| reader.is_closed())
    }

    /// What the streams gave. Each of them is closed. It takes no memory.
    pub fn outcome(self) -> Gathered
        requires { All HasClosed self }
        ensures streams { result.streams ≡ length self.entry }
        ensures one_each { length result.readings.items ≡ length self.entry }
        ensures results { (names : List ProcessNames) (steps : Interleaving) → HasTaken self.entry names steps →
            AreResultsOf names (raw_streams (length self.entry) steps) (results_view result.readings.items) }
        ensures fit { (names : List ProcessNames) (steps : Interleaving) → HasTaken self.entry names steps →
            All (ReadingFits names) result.readings.items }
    {
        let Core { readers, mut room } = self;
        let streams = readers.len() as u64;
        for reader in readers {
            room.push(reader.outcome()).unwrap();
        }
        Gathered {
            streams,
            readings: room,
        }
    }
}
