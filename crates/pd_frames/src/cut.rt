//! Takes the lines that end off a piece.
ghost use Rattle.def_format.specs.Lines.{IsBatch, has_line_feed, is_blank as is_blank_line, numbered_from};
ghost use Rattle.def_format.specs.Limits.{line_byte_limit, stream_byte_limit};
ghost use Rattle.pd_frames.specs.Cuts.{Faces, FacesEnd, Fits, IsOpen};
ghost use Rattle.pd_frames.specs.Views.{frame_fault_view, frame_faults_view, lines_view};
ghost use Rattle.std.specs.Cow.{cow_slice_items};
ghost use Rattle.std.specs.Prelude.{◌≡◌, ◌+◌, ◌*◌, ◌<◌, ◌≤◌, false, List, ℕ, [], ◌∷◌, ◌++◌, length, Some, IfSome, IfNone, IfOk, OnOk, MatchOption};

use super::line::{FrameFault, Line};
use def_format::{LINE_BYTE_LIMIT, STREAM_BYTE_LIMIT};
use memchr::memchr;
use std::alloc::{AllocError, Global};
use std::borrow::CowSlice;

/// What is left of a piece once the lines that end in it are taken off.
#[derive(Drop)]
pub struct Remainder<'kept, 'piece> {
    /// The lines that end, without the blank ones.
    pub lines: Vec<Line<'piece>>,
    /// The first fault of the lines that end, after which nothing counts.
    pub fault: Option<FrameFault>,
    /// The bytes before the piece that belong to the line that hasn't ended.
    pub kept: &'kept [u8],
    /// The bytes of the piece that belong to it.
    pub tail: &'piece [u8],
    /// Its number, counted from 1.
    pub line: u64,
    /// How many bytes of the stream stand before the tail.
    pub total: u64,
}

/// The bytes before the first LF and those after it, if there is one.
fn split_line(bytes: &[u8]) -> Option<(&[u8], &[u8])>
    ensures { MatchOption result (has_line_feed bytes.now ≡ false)
        (λ parts. (bytes.now ≡ parts.0.now ++ 10 ∷ parts.1.now) × (has_line_feed parts.0.now ≡ false)) }
{
    let end = memchr(b'\n', bytes)?;
    Some((&bytes[..end], &bytes[end + 1..]))
}

/// Whether a line ends in these bytes.
pub fn has_line_feed(bytes: &[u8]) -> bool
    ensures { result ≡ has_line_feed bytes.now }
{
    memchr(b'\n', bytes).is_some()
}

/// Whether there is nothing but spaces, tabs and CRs.
fn is_blank(bytes: &[u8]) -> bool
    ensures { result ≡ is_blank_line bytes.now }
{
    bytes
        .iter()
        .all(|byte| *byte == b' ' || *byte == b'\t' || *byte == b'\r')
}

/// One text of the two.
fn concatenation(alloc: Global, first: &[u8], second: &[u8]) -> Result<Vec<u8>, AllocError>
    ensures { IfOk result (λ bytes. bytes.items ≡ first.now ++ second.now) }
{
    let mut bytes = Vec::from_slice(alloc, first)?;
    bytes.extend_from_slice(second)?;
    Ok(bytes)
}

/// The bytes of the line that both parts make. They are the second part's if the first one is empty.
fn line_bytes<'piece>(
    alloc: Global,
    kept: &[u8],
    part: &'piece [u8],
) -> Result<CowSlice<'piece, u8>, AllocError>
    ensures { IfOk result (λ bytes. cow_slice_items bytes ≡ kept.now ++ part.now) }
{
    if kept.is_empty() {
        return Ok(CowSlice::Borrowed(part));
    }
    Ok(CowSlice::Owned(concatenation(alloc, kept, part)?))
}

/// Adds the line that both parts make, if it isn't blank.
pub fn push_line<'piece>(
    alloc: Global,
    lines: &mut Vec<Line<'piece>>,
    number: u64,
    kept: &[u8],
    part: &'piece [u8],
) -> Result<(), AllocError>
    ensures { OnOk result (lines_view lines.new.items
        ≡ lines_view lines.old.items ++ numbered_from number ((kept.now ++ part.now) ∷ [])) }
{
    if is_blank(kept) && is_blank(part) {
        return Ok(());
    }
    let bytes = line_bytes(alloc, kept, part)?;
    lines.push(Line { number, bytes })?;
    Ok(())
}

/// The fault of the first byte that has one, of a part without LF that comes next in the line.
pub fn part_fault(kept: &[u8], line: u64, total: u64, part: &[u8]) -> Option<FrameFault>
    requires { Fits (length kept.now) line total }
    ensures fits { IfNone result ((length kept.now + length part.now ≤ line_byte_limit)
        × (total + length part.now ≤ stream_byte_limit)) }
    ensures faulty { IfSome result (λ fault. Faces kept.now line total part.now (Some (frame_fault_view fault))) }
{
    def_format::faults_of_parts();
    def_format::lines_grow();
    let line_room = LINE_BYTE_LIMIT - kept.len();
    let stream_room = STREAM_BYTE_LIMIT - total;
    if part.len() > line_room && line_room as u64 <= stream_room {
        Some(FrameFault::LineTooLong(line))
    } else if part.len() as u64 > stream_room {
        Some(FrameFault::StreamTooLong(line))
    } else {
        None
    }
}

/// The same of a part that an LF ends, which may be the first byte at fault.
fn ended_fault(kept: &[u8], line: u64, total: u64, part: &[u8]) -> Option<FrameFault>
    requires { Fits (length kept.now) line total }
    ensures fits { IfNone result ((length kept.now + length part.now ≤ line_byte_limit)
        × (total + length part.now < stream_byte_limit)) }
    ensures faulty { IfSome result (λ fault. FacesEnd kept.now line total part.now (Some (frame_fault_view fault))) }
{
    def_format::faults_of_parts();
    def_format::lines_grow();
    match part_fault(kept, line, total, part) {
        Some(fault) => Some(fault),
        None if total + part.len() as u64 == STREAM_BYTE_LIMIT => Some(FrameFault::StreamTooLong(
            line,
        )),
        None => None,
    }
}

/// Takes the lines that end off a piece. Before it stand these bytes of the line with this number, and this many bytes
/// of the stream in all.
pub fn take_lines<'kept, 'piece>(
    alloc: Global,
    mut kept: &'kept [u8],
    mut line: u64,
    mut total: u64,
    piece: &'piece [u8],
) -> Result<Remainder<'kept, 'piece>, AllocError>
    requires { Fits (length kept.now) line total }
    ensures batch { IfOk result (λ cut. (bytes : List ℕ) → IsOpen kept.now line total bytes →
        IsBatch bytes piece.now (lines_view cut.lines.items) (frame_faults_view cut.fault)) }
    ensures goes_on { IfOk result (λ cut. IfNone cut.fault ((bytes : List ℕ) → IsOpen kept.now line total bytes →
        IsOpen (cut.kept.now ++ cut.tail.now) cut.line (cut.total + length cut.tail.now) (bytes ++ piece.now))) }
    ensures fits { IfOk result (λ cut. IfNone cut.fault
        (Fits (length cut.kept.now + length cut.tail.now) cut.line (cut.total + length cut.tail.now))) }
    ensures kept { IfOk result (λ cut. 0 < length cut.kept.now → cut.kept.now ≡ kept.now) }
{
    def_format::faults_of_parts();
    def_format::lines_grow();
    let mut lines = Vec::new(alloc);
    let mut tail = piece;
    'lines: while let Some((part, following)) = split_line(tail) {
        if let Some(fault) = ended_fault(kept, line, total, part) {
            return Ok(Remainder {
                lines,
                fault: Some(fault),
                kept,
                tail,
                line,
                total,
            });
        }
        push_line(alloc, &mut lines, line, kept, part)?;
        total += part.len() as u64 + 1;
        line += 1;
        kept = &[];
        tail = following;
    }
    let fault = part_fault(kept, line, total, tail);
    Ok(Remainder {
        lines,
        fault,
        kept,
        tail,
        line,
        total,
    })
}
