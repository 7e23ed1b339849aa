//! Shows a line with a caret below a place of it.
ghost use Rattle.app_text.specs.Shown.{columns, dots, shown, shown_byte};
ghost use Rattle.app_text.specs.Window.{IsFittingFirst, IsFittingLast, ShowsPlace, ShowsStart};
ghost use Rattle.std.specs.Prelude.{◌≡◌, ◌+◌, ◌-◌, ◌^◌, List, ℕ, ◌++◌, length, drop, take, min, replicate, codes, MatchOption, OnOk};

use super::lines::{bytes_before, bytes_from};
use super::says::{columns_of, dots, put, put_bytes};
use std::alloc::AllocError;

/// How many columns before the place are shown.
const BEFORE_LIMIT: usize = 45;

/// How many columns of it are shown: with what stands before and after them no row has more than 80 columns.
const LIMIT: usize = 70;

/// How many of the first bytes fit in this many columns.
fn fitting_first(bytes: &[u8], columns: usize) -> usize
    ensures { IsFittingFirst bytes.now columns result }
{
    let mut room = columns;
    for (count, byte) in bytes.iter().enumerate() {
        let width = columns_of(*byte);
        if width > room {
            return count;
        }
        room -= width;
    }
    bytes.len()
}

/// How many of the first bytes are left out, so that those that remain fit in this many columns.
fn skipped_first(bytes: &[u8], columns: usize) -> usize
    ensures { IsFittingLast bytes.now columns result }
{
    let mut room = columns;
    let mut skipped = bytes.len();
    'bytes: while skipped > 0 {
        let width = columns_of(bytes[skipped - 1]);
        if width > room {
            return skipped;
        }
        room -= width;
        skipped -= 1;
    }
    skipped
}

/// How many columns the bytes take.
fn columns_in(bytes: &[u8]) -> usize
    ensures { result ≡ min (columns bytes.now) (2 ^ 64 - 1) }
{
    let mut columns = 0usize;
    for byte in bytes {
        columns = columns.saturating_add(columns_of(*byte));
    }
    columns
}

/// Puts as many spaces as the bytes take columns.
fn put_indent(out: &mut Vec<u8>, bytes: &[u8]) -> Result<(), AllocError>
    ensures { OnOk result (out.new.items ≡ out.old.items ++ replicate (columns bytes.now) 32) }
{
    for byte in bytes {
        put_width(out, *byte)?;
    }
    Ok(())
}

/// Puts as many spaces as the byte takes columns.
fn put_width(out: &mut Vec<u8>, byte: u8) -> Result<(), AllocError>
    ensures { OnOk result (out.new.items ≡ out.old.items ++ replicate (length (shown_byte byte)) 32) }
{
    put(out, if columns_of(byte) == 1 { " " } else { "    " })
}

/// As many spaces as stand before the first byte that is shown, and dots.
fn margin(is_cut: bool) -> &'static str
    ensures { result.now ≡ replicate (4 + length (dots is_cut)) 32 }
{
    if is_cut { "       " } else { "    " }
}

/// Shows the first bytes of a line.
fn put_start(out: &mut Vec<u8>, line: &[u8]) -> Result<(), AllocError>
    ensures { OnOk result ((text : List ℕ) × ShowsStart line.now text × (out.new.items ≡ out.old.items ++ text)) }
{
    let count = fitting_first(line, LIMIT);
    put(out, "    ")?;
    put_bytes(out, &line[..count])?;
    put(out, dots(count < line.len()))?;
    put(out, "\n")?;
    Ok(())
}

/// Puts these bytes before a place and those from it on, with dots where others are left out.
fn put_window(
    out: &mut Vec<u8>,
    before: &[u8],
    after: &[u8],
    is_cut: bool,
    goes_on: bool,
) -> Result<(), AllocError>
    ensures { OnOk result (out.new.items ≡ out.old.items ++ (codes "    " ++ dots is_cut ++ shown before.now
        ++ shown after.now ++ dots goes_on ++ codes "\n")) }
{
    put(out, "    ")?;
    put(out, dots(is_cut))?;
    put_bytes(out, before)?;
    put_bytes(out, after)?;
    put(out, dots(goes_on))?;
    put(out, "\n")?;
    Ok(())
}

/// Puts a caret below the byte that comes after these, of which some may be left out.
fn put_caret(out: &mut Vec<u8>, before: &[u8], is_cut: bool) -> Result<(), AllocError>
    ensures { OnOk result (out.new.items ≡ out.old.items
        ++ (replicate (length (codes "    " ++ dots is_cut ++ shown before.now)) 32 ++ codes "^\n")) }
{
    put(out, margin(is_cut))?;
    put_indent(out, before)?;
    put(out, "^\n")?;
    Ok(())
}

/// Shows the bytes before a place and those from it on, and a caret below the place.
fn put_parts(out: &mut Vec<u8>, before: &[u8], after: &[u8]) -> Result<(), AllocError>
    ensures { OnOk result ((text : List ℕ) × ShowsPlace before.now after.now text
        × (out.new.items ≡ out.old.items ++ text)) }
{
    let skipped = skipped_first(before, BEFORE_LIMIT);
    let shown_before = &before[skipped..];
    let count = fitting_first(after, LIMIT.saturating_sub(columns_in(shown_before)));
    let shown_after = &after[..count];
    put_window(
        out,
        shown_before,
        shown_after,
        skipped > 0,
        count < after.len(),
    )?;
    put_caret(out, shown_before, skipped > 0)?;
    Ok(())
}

/// Shows a line, cut to a window of 70 columns around the place, with a caret below the byte there. A place past the
/// line's end is that of its end. With no place the line's start is shown, and no caret.
///
/// # Errors
/// Out of memory.
pub(crate) fn put_line(
    out: &mut Vec<u8>,
    line: &[u8],
    place: Option<usize>,
) -> Result<(), AllocError>
    ensures { OnOk result ((text : List ℕ) × MatchOption place (ShowsStart line.now text)
        (λ at. ShowsPlace (take at line.now) (drop at line.now) text) × (out.new.items ≡ out.old.items ++ text)) }
{
    match place {
        Some(place) => {
            put_parts(out, bytes_before(line, place), bytes_from(line, place))?;
            Ok(())
        }
        None => put_start(out, line),
    }
}
