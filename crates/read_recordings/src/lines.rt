//! The lines of a stream, in batches.
ghost use Rattle.def_format.specs.Lines.{all_lines, is_blank, numbered_from};
ghost use Rattle.def_format.specs.Readings.{Fault};
ghost use Rattle.pd_events.specs.Views.{stream_kind_view};
ghost use Rattle.pd_frames.specs.Views.{lines_view};
ghost use Rattle.read_recordings.specs.Rests.{EndsBy, GoesOnTo, IsNextLine};
ghost use Rattle.std.specs.Prelude.{◌≡◌, ◌+◌, ◌<◌, ◌≤◌, ◌^◌, [], ◌∷◌, ◌++◌, length, IfNone, IfOk, IfSome, MatchOption, MatchResult, OnOk};

use def_format::LINE_BYTE_LIMIT;
use memchr::memchr;
use pd_events::{StreamFault, StreamKind};
use pd_frames::Line;
use std::alloc::{AllocError, Global};
use std::borrow::CowSlice;

/// The most lines of a batch.
const BATCH_LINE_LIMIT: usize = 1_024;

/// The first line, without its LF, and the bytes after that. The last line may have no LF. There is none if there is no
/// byte.
fn first_line(bytes: &[u8]) -> Option<(&[u8], &[u8])>
    ensures { MatchOption result (all_lines bytes.now ≡ [])
        (λ parts. (all_lines bytes.now ≡ parts.0.now ∷ all_lines parts.1.now)
        × (length parts.1.now < length bytes.now)) }
{
    if bytes.is_empty() {
        return None;
    }
    match memchr(b'\n', bytes) {
        Some(end) => Some((&bytes[..end], &bytes[end + 1..])),
        None => Some((bytes, &[])),
    }
}

/// The next line of a stream, without its LF, and the bytes after that. The line has this number.
///
/// # Errors
/// The fault by which the stream ends: there is no line, or it is too long.
fn next_line(number: u64, rest: &[u8]) -> Result<(&[u8], &[u8]), StreamFault>
    ensures { MatchResult result (λ parts. IsNextLine number rest.now parts.0.now parts.1.now)
        (λ fault. EndsBy number rest.now (Fault fault.line (stream_kind_view fault.kind))) }
{
    let Some((line, following)) = first_line(rest) else {
        return Err(StreamFault {
            line: number,
            kind: StreamKind::Unended,
        });
    };
    if line.len() > LINE_BYTE_LIMIT {
        return Err(StreamFault {
            line: number,
            kind: StreamKind::LineTooLong,
        });
    }
    Ok((line, following))
}

/// Whether there is nothing but spaces, tabs and CRs.
fn is_blank(bytes: &[u8]) -> bool
    ensures { result ≡ is_blank bytes.now }
{
    bytes
        .iter()
        .all(|byte| *byte == b' ' || *byte == b'\t' || *byte == b'\r')
}

/// Adds a line, if it isn't blank.
fn push_line<'a>(lines: &mut Vec<Line<'a>>, number: u64, bytes: &'a [u8]) -> Result<(), AllocError>
    ensures pushed { OnOk result (lines_view lines.new.items
        ≡ lines_view lines.old.items ++ numbered_from number (bytes.now ∷ [])) }
    ensures few { OnOk result (length lines.new.items ≤ length lines.old.items + 1) }
{
    if is_blank(bytes) {
        return Ok(());
    }
    lines.push(Line {
        number,
        bytes: CowSlice::Borrowed(bytes),
    })?;
    Ok(())
}

/// Lines that stand one after another in a stream, and where they end.
#[derive(Drop)]
pub(crate) struct Batch<'a> {
    /// The lines, without the blank ones.
    pub(crate) lines: Vec<Line<'a>>,
    /// The fault by which the stream ends after them, if no more lines come.
    pub(crate) end: Option<StreamFault>,
    /// The number of the line after them.
    pub(crate) number: u64,
    /// The bytes from that line on.
    pub(crate) rest: &'a [u8],
}

/// The lines that come next in a stream, of which the first has this number: at most 1,024, the blank ones aside. They
/// lend their bytes.
///
/// # Errors
/// If memory runs out.
pub(crate) fn next_batch(alloc: Global, first: u64, bytes: &[u8]) -> Result<Batch<'_>, AllocError>
    requires { first + length bytes.now < 2 ^ 64 }
    ensures goes_on { IfOk result (λ batch.
        GoesOnTo first bytes.now (lines_view batch.lines.items) batch.number batch.rest.now) }
    ensures ends { IfOk result (λ batch. IfSome batch.end (λ fault.
        EndsBy batch.number batch.rest.now (Fault fault.line (stream_kind_view fault.kind)))) }
    ensures shorter { IfOk result (λ batch. IfNone batch.end (length batch.rest.now < length bytes.now)) }
{
    let mut lines = Vec::with_capacity(alloc, BATCH_LINE_LIMIT)?;
    let mut number = first;
    let mut rest = bytes;
    'lines: while lines.len() < BATCH_LINE_LIMIT {
        match next_line(number, rest) {
            Ok((line, following)) => {
                push_line(&mut lines, number, line)?;
                number += 1;
                rest = following;
            }
            Err(fault) => {
                return Ok(Batch {
                    lines,
                    end: Some(fault),
                    number,
                    rest,
                });
            }
        }
    }
    Ok(Batch {
        lines,
        end: None,
        number,
        rest,
    })
}
