//! A stream that is read from a source, while its steps are posted.
ghost use mathlib.Core.List.{IsPrefix};
ghost use Rattle.pd_events.specs.Views.{result_view};
ghost use Rattle.def_format.specs.Histories.{fresh_row};
ghost use Rattle.def_format.specs.Names.{ProcessNames};
ghost use Rattle.def_format.specs.Readings.{NothingMore};
ghost use Rattle.pd_gather.specs.ReadSoFar.{HasRead, ReadsOn, input_of_read};
ghost use Rattle.pd_gather.specs.ReadStreams.{IsReadFrom, IsReadInPart, IsReadOf, read_byte_limit};
ghost use Rattle.pd_gather.specs.Rows.{row_of_reading};
ghost use Rattle.pd_gather.specs.Views.{ReadingFits, input_view};
ghost use Rattle.def_judgement.specs.Writes.{Source};
ghost use Rattle.pd_register.specs.Seats.{IsSameSeat, IsSeatOf, posted_row, seen_history};
ghost use Rattle.pd_spec.specs.Views.{document_view};
ghost use Rattle.std.specs.Prelude.{◌≡◌, ◌<◌, ◌≤◌, ◌+◌, ℕ, false, List, IfOk, OnErr, OnOk, length, vec_len};

use super::Input;
use super::byte_source::ByteSource;
use super::posting::post_records;
use super::streams::take_input;
use def_format::STREAM_BYTE_LIMIT;
use pd_events::{StreamFault, TraceReader};
use pd_register::{Register, Seat};
use pd_spec::Spec;
use read_traces::Trace;
use std::alloc::{AllocError, Global};
use std::io;
use std::sync::Wait;

/// How many bytes one read asks for.
const READ_BYTE_LIMIT: usize = 65_536;

/// How many reads close every stream: each gives a byte or more, or closes it, and with more bytes than a stream may
/// have none is open.
const READS: u64 = STREAM_BYTE_LIMIT + 1;

/// Room for the bytes of one read.
fn new_piece(alloc: Global, size: usize) -> Result<Vec<u8>, AllocError>
    ensures { IfOk result (λ piece. vec_len piece ≡ size) }
{
    vec![in alloc; 0u8; size]
}

/// What a read into the piece gives the stream: the bytes that came, the source's end if there were none, or that the
/// read failed.
fn input_of(read: io::Result<usize>, piece: &[u8]) -> Input<'_>
    requires { IfOk read (λ count. count ≤ length piece.now) }
    ensures { input_view result ≡ input_of_read read piece.now }
{
    match read {
        Ok(0) => Input::End,
        Ok(count) => Input::Piece(&piece[..count]),
        Err(_) => Input::Failed,
    }
}

/// Asks the source once, and gives the stream what came. The stream is open.
fn read_once<R: ByteSource>(
    reader: &mut R,
    piece: &mut [u8],
    stream: &mut TraceReader<'_>,
) -> Result<(), AllocError>
    requires more { R.has_ended reader.old ≡ false }
    requires room { 0 < length piece.old }
    requires limit { length piece.old ≤ read_byte_limit }
    requires open { stream.old.reading.stop ≡ NothingMore }
    ensures read { OnOk result ((names : List ProcessNames) (input : Source) (reads : ℕ) →
        HasRead names input (R.left reader.old) reads stream.old →
        ReadsOn names input (R.left reader.new) (reads + 1) stream.old stream.new) }
    ensures more { OnOk result ((names : List ProcessNames) (input : Source) (reads : ℕ) →
        HasRead names input (R.left reader.old) reads stream.old →
        stream.new.reading.stop ≡ NothingMore → R.has_ended reader.new ≡ false) }
    ensures refused { OnErr result ((names : List ProcessNames) (input : Source) (reads : ℕ) →
        HasRead names input (R.left reader.old) reads stream.old →
        IsReadInPart names input (R.left reader.new) (row_of_reading stream.old.reading)) }
{
    let input = input_of(reader.read_next(piece), piece);
    take_input(stream, input)
}

/// Reads a stream from a source that is used again: what was consumed of it are the stream's bytes. The source hears of
/// the stream's fault, if it has one.
///
/// # Errors
/// If memory runs out; the seat keeps its posts. They are the first of those that the bytes read until then lead to,
/// and neither the end nor the fault is among them. What the seat has seen grows, as it does without an error.
pub(super) fn read_from<T: Wait, R: ByteSource>(
    rt: &T,
    alloc: Global,
    spec: &Spec,
    reader: &mut R,
    register: &Register,
    seat: &mut Seat,
) -> Result<Result<Trace, StreamFault>, AllocError>
    requires own { IsSeatOf register.now seat.old }
    requires fresh { posted_row seat.old ≡ fresh_row }
    requires open { R.has_ended reader.old ≡ false }
    ensures seat { IsSameSeat register.now seat.old seat.new }
    ensures seen { IsPrefix (seen_history seat.old) (seen_history seat.new) }
    ensures read { IfOk result (λ given. IsReadFrom (document_view spec.now).names
        (R.left reader.old) (R.left reader.new) (result_view given) (posted_row seat.new)) }
    ensures fits { IfOk result (ReadingFits (document_view spec.now).names) }
    ensures refused { OnErr result (IsReadInPart (document_view spec.now).names
        (R.left reader.old) (R.left reader.new) (posted_row seat.new)) }
{
    def_format::closed_stays();
    def_format::readings_go_on();
    let mut piece = new_piece(alloc, READ_BYTE_LIMIT)?;
    let mut stream = TraceReader::new(alloc, spec);
    'reads: for _ in 0..READS {
        if stream.is_closed() {
            break;
        }
        read_once(reader, &mut piece, &mut stream)?;
        post_records(rt, register, seat, &stream)?;
    }
    let outcome = stream.outcome();
    if let Err(fault) = &outcome {
        reader.on_fault(*fault);
    }
    Ok(outcome)
}

/// Reads a stream to its end line or its first fault, to the source's end, or until a read fails, and gives its trace
/// or its fault. Any error of a read is a failed read. The source isn't asked again once the stream is closed. After
/// each read the steps of the records that came are posted: the join, an event each, and then the end or the fault. No
/// lock is held while bytes are read.
///
/// # Errors
/// If memory runs out; the seat keeps its posts. They are the first of those that the bytes read until then lead to,
/// and neither the end nor the fault is among them. What the seat has seen grows, as it does without an error.
pub fn read_stream<T: Wait, R: ByteSource + Drop>(
    rt: &T,
    alloc: Global,
    spec: &Spec,
    mut reader: R,
    register: &Register,
    seat: &mut Seat,
) -> Result<Result<Trace, StreamFault>, AllocError>
    requires own { IsSeatOf register.now seat.old }
    requires fresh { posted_row seat.old ≡ fresh_row }
    requires open { R.has_ended reader ≡ false }
    ensures seat { IsSameSeat register.now seat.old seat.new }
    ensures seen { IsPrefix (seen_history seat.old) (seen_history seat.new) }
    ensures read { IfOk result (λ given. IsReadOf (document_view spec.now).names (R.left reader)
        (result_view given) (posted_row seat.new)) }
    ensures fits { IfOk result (ReadingFits (document_view spec.now).names) }
    ensures refused { OnErr result ((left : Source) × IsReadInPart (document_view spec.now).names
        (R.left reader) left (posted_row seat.new)) }
{
    read_from(rt, alloc, spec, &mut reader, register, seat)
}
