//! Breaks the lines of an explanation into rows.
ghost use Rattle.app_text.specs.Rows.{AreRows, AreRowsOrText, IsInRows, IsRowLength, IsShownSo, first_columns, shows_file, without_space};
ghost use Rattle.std.specs.Prelude.{◌≡◌, ◌<◌, List, ℕ, ◌++◌, length, IfOk, OnOk};

use super::lines::cut_line;
use super::text::Text;
use pd_report::push_bytes;
use std::alloc::{AllocError, Global};

/// How many columns a row has at most.
const COLUMNS: usize = 80;

/// What begins a line that shows a part of a file, which stays as it is.
const SHOWN: &[u8] = b"    ";

/// Whether a line shows a part of a file.
fn shows_file(line: &[u8]) -> bool
    ensures { result ≡ shows_file line.now }
{
    line.starts_with(SHOWN)
}

/// How many of the first bytes of a line stand in its first row: as many as fit before a space.
fn row_length(line: &[u8], columns: usize) -> usize
    ensures { columns < length line.now → IsRowLength columns line.now result }
{
    let mut length = columns;
    for (index, byte) in line.iter().enumerate() {
        if index > columns {
            return length;
        }
        if *byte == b' ' && index > 0 {
            length = index;
        }
    }
    length
}

/// The bytes without a space before them.
fn without_space(bytes: &[u8]) -> &[u8]
    ensures { result.now ≡ without_space bytes.now }
{
    match bytes.split_first() {
        Some((first, rest)) => if *first == b' ' { rest } else { bytes },
        None => bytes,
    }
}

/// Puts a line in rows: each but the first begins with two spaces.
fn push_rows(out: &mut Vec<u8>, line: &[u8]) -> Result<(), AllocError>
    ensures { OnOk result ((text : List ℕ) × AreRows first_columns line.now text
        × (out.new.items ≡ out.old.items ++ text)) }
{
    let mut rest = line;
    let mut columns = COLUMNS;
    'rows: while rest.len() > columns {
        let (row, after) = rest.split_at(row_length(rest, columns));
        push_bytes(out, row)?;
        push_bytes(out, b"\n  ")?;
        rest = without_space(after);
        columns = COLUMNS - 2;
    }
    push_bytes(out, rest)?;
    Ok(())
}

/// Puts a line in rows, or as it is if it shows a part of a file.
fn push_line(out: &mut Vec<u8>, line: &[u8]) -> Result<(), AllocError>
    ensures { OnOk result ((text : List ℕ) × IsShownSo line.now text
        × (out.new.items ≡ out.old.items ++ text)) }
{
    if shows_file(line) {
        return push_bytes(out, line);
    }
    push_rows(out, line)
}

/// The lines of an explanation in rows of 80 columns at most. A line that shows a part of a file stays as it is.
///
/// # Errors
/// Out of memory.
pub fn in_rows(alloc: Global, text: &[u8]) -> Result<Vec<u8>, AllocError>
    ensures { IfOk result (λ rows. IsInRows text.now rows.items) }
{
    let mut out = Vec::new(alloc);
    let mut rest = text;
    'lines: loop {
        let (line, after) = cut_line(rest);
        push_line(&mut out, line)?;
        match after {
            Some(after) => {
                push_bytes(&mut out, b"\n")?;
                rest = after;
            }
            None => return Ok(out),
        }
    }
}

/// The lines of an explanation in rows, or as they are if memory is refused.
pub fn rows_of(alloc: Global, text: Text) -> Vec<u8>
    ensures { AreRowsOrText text.bytes result.items }
{
    match in_rows(alloc, text.bytes()) {
        Ok(rows) => rows,
        Err(_) => text.into_bytes(),
    }
}
