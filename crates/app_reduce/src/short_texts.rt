//! Long explanations, cut in their middle: a run may have thousands of processes, and each may have a line.
use pd_report::{push_bytes, push_number};
use std::alloc::{AllocError, Global};

/// The most lines of an explanation that is shown whole.
const LINE_LIMIT: usize = 100;

/// How many of the first lines of a longer one are shown.
const FIRST_LINES: usize = 60;

/// How many of its last lines are shown.
const LAST_LINES: usize = 20;

/// How many lines a text has.
fn line_count(text: &[u8]) -> usize {
    let mut lines = 0usize;
    for byte in text {
        if *byte == b'\n' {
            lines = lines.saturating_add(1);
        }
    }
    lines
}

/// Where the text goes on after this many of its lines.
fn place_after(text: &[u8], lines: usize) -> usize {
    let mut passed = 0usize;
    for at in 0..text.len() {
        if passed >= lines {
            return at;
        }
        if text[at] == b'\n' {
            passed = passed.saturating_add(1);
        }
    }
    text.len()
}

/// The first and the last lines of a text of this many lines, and how many are left out between them.
fn ends_of(alloc: Global, text: &[u8], lines: usize) -> Result<Vec<u8>, AllocError> {
    let shown = FIRST_LINES.saturating_add(LAST_LINES);
    let first = place_after(text, FIRST_LINES);
    let last = place_after(text, lines.saturating_sub(LAST_LINES));
    let mut out = Vec::new(alloc);
    push_bytes(&mut out, text.get(..first).unwrap_or(&[]))?;
    push_bytes(&mut out, b"(")?;
    push_number(&mut out, lines.saturating_sub(shown) as u64)?;
    push_bytes(&mut out, b" lines are left out.)\n")?;
    push_bytes(&mut out, text.get(last..).unwrap_or(&[]))?;
    Ok(out)
}

/// The text, or its first and last lines if it has over 100.
///
/// It takes time for the text.
pub(crate) fn shortened(alloc: Global, text: Vec<u8>) -> Vec<u8> {
    let lines = line_count(&text);
    if lines <= LINE_LIMIT {
        return text;
    }
    match ends_of(alloc, &text, lines) {
        Ok(short) => short,
        Err(_) => text,
    }
}
