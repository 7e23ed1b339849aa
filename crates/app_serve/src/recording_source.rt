//! Records a stream, and keeps it, while it is read.
ghost use Rattle.app_serve.specs.Kept.{KeepsOn};
ghost use Rattle.std.specs.Io.{ReadsAtMost};
ghost use Rattle.std.specs.Prelude.{◌≡◌, [], IfSome, MatchResult, take};

use super::keeping::Keeping;
use super::notices::Notices;
use super::peer::Peer;
use super::peers::Peers;
use super::start_recorder::StartRecorder;
use app_host::NotedSource;
use pd_gather::{ByteSource, StreamFault, StreamKind};
use std::alloc::Global;
use std::io;
use std::io::Write;

/// Gives the bytes of a source as they are, records how they begin, and keeps them if they are to be kept.
#[derive(Drop)]
pub struct RecordingSource<'a, R: Drop, W, T> {
    /// Where the bytes come from, which are noted if explanations are wanted.
    pub source: NotedSource<'a, R>,
    /// Of whom it is noted how it begins and where it is refused, if that is wanted.
    peer: Option<&'a Peer>,
    start_recorder: StartRecorder<'a>,
    /// Where they are kept, if they are.
    keeping: Option<Keeping<'a, W, T>>,
    /// Who is told how the stream begins, and that it is refused.
    notices: &'a T,
    /// The stream's place, counted from 0.
    place: usize,
    alloc: Global,
}

impl<'a, R: Drop, W, T> RecordingSource<'a, R, W, T> {
    /// The source of the stream at this place, of which it is noted for these peers how it begins and where it is
    /// refused, if they are noted, and which is kept, if it is.
    pub fn new(
        alloc: Global,
        source: NotedSource<'a, R>,
        place: usize,
        peers: &'a Peers,
        keeping: Option<Keeping<'a, W, T>>,
        notices: &'a T,
    ) -> RecordingSource<'a, R, W, T>
        ensures { result.source ≡ source.entry }
    {
        RecordingSource {
            source,
            peer: peers.at(place),
            start_recorder: StartRecorder::new(alloc, peers.at(place)),
            keeping,
            notices,
            place,
            alloc,
        }
    }
}

impl<'a, R: Drop, W: Write, T: Notices> RecordingSource<'a, R, W, T> {
    /// Tells that it is noted how the stream begins, and calls its file as it is called from here on.
    fn begin(&mut self)
        ensures { self.new.source ≡ self.old.source }
    {
        let name = self.notices.has_begun(self.place);
        if let (Some(keeping), Some(name)) = (&mut self.keeping, name) {
            let copy = String::from_str(self.alloc, &name);
            if let (Some(peer), Ok(copy)) = (self.peer, copy) {
                peer.note_file(copy);
            }
            keeping.call(name);
        }
    }
}

/// The bytes that a read put into the piece: none, if it failed.
fn read_bytes<'a>(read: &io::Result<usize>, piece: &'a [u8]) -> &'a [u8]
    requires { ReadsAtMost read.now piece.now }
    ensures { MatchResult read.now (λ count. result.now ≡ take count piece.now) (λ _. result.now ≡ []) }
{
    match read {
        Ok(count) => &piece[..*count],
        Err(_) => &[],
    }
}

/// The number of the line that is at fault, or of the last one if the stream ends too soon.
fn shown_line(fault: StreamFault) -> u64 {
    match fault.kind {
        StreamKind::Unended => fault.line.saturating_sub(1),
        _ => fault.line,
    }
}

/// The line of this number, counted from 1, of these bytes, without its line feed, if there is one.
fn line_of(bytes: &[u8], number: u64) -> Option<&[u8]> {
    if bytes.is_empty() {
        return None;
    }
    for (place, line) in bytes.split(|byte| *byte == b'\n').enumerate() {
        if (place as u64).saturating_add(1) == number {
            return Some(line);
        }
    }
    None
}

/// Notes of this peer at which line of these bytes its stream is refused, if there is memory for it.
fn note_line(alloc: Global, peer: &Peer, bytes: &[u8], fault: StreamFault) {
    if let Some(line) = line_of(bytes, shown_line(fault)) {
        if let Ok(copy) = Vec::from_slice(alloc, line) {
            peer.note_line(copy);
        }
    }
}

impl<'a, R: ByteSource + Drop, W: Write, T: Notices> ByteSource for RecordingSource<'a, R, W, T> {
    ghost left = { λ recording. R.left recording.source.source };

    ghost has_ended = { λ recording. R.has_ended recording.source.source };

    fn read_next(&mut self, piece: &mut [u8]) -> io::Result<usize> {
        let read = self.source.read_next(piece);
        let bytes = read_bytes(&read, piece);
        if self.start_recorder.record(bytes) {
            self.begin();
        }
        if let Some(keeping) = &mut self.keeping {
            keeping.keep(bytes);
        }
        read
    }

    fn on_fault(&self, fault: StreamFault) {
        self.source.on_fault(fault);
        if let Some(peer) = self.peer {
            note_line(self.alloc, peer, self.source.bytes(), fault);
        }
        self.notices.has_fault(self.place, fault);
    }
}
