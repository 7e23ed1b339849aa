//! What a run has read of a bundle.
ghost use Rattle.app_ends.specs.Parts.{ArePartsOf, IsLineLength, IsPart, part_name};
ghost use Rattle.app_ends.specs.Shown.{bytes_view, first_view, later_views, part_view, source_view};
ghost use Rattle.def_format.specs.Bundles.{is_separator};
ghost use Rattle.std.specs.Prelude.{◌≡◌, ◌<◌, length, map, option_map, string_bytes, IfOk};

use app_explain::SeenStream;
use app_text::{Source, cut_line};
use std::alloc::{AllocError, Global};

/// A part of a bundle.
#[derive(Drop)]
pub struct Part<'a> {
    /// What it is called: it is empty for the document.
    name: String,
    /// Its bytes.
    bytes: &'a [u8],
    /// How many lines of the bundle stand before it.
    before: u64,
}

impl<'a> Part<'a> {
    /// The part as it is explained.
    fn source(&self) -> Source<'_>
        ensures { source_view result ≡ part_view self.now }
    {
        Source {
            name: if self.name.is_empty() {
                "the document"
            } else {
                self.name.as_str()
            },
            bytes: self.bytes,
            before: self.before,
        }
    }
}

/// Whether a line, with its LF if it has one, divides two parts of a bundle.
fn is_separator(line: &[u8]) -> bool
    ensures { result ≡ is_separator line.now }
{
    matches!(line, b"---" | b"---\r" | b"---\n" | b"---\r\n")
}

/// How many bytes the first line of some bytes has, with its LF if it has one.
fn line_length(bytes: &[u8]) -> usize
    requires { 0 < length bytes.now }
    ensures { IsLineLength bytes.now result }
{
    match cut_line(bytes).1 {
        Some(after) => bytes.len() - after.len(),
        None => bytes.len(),
    }
}

/// What the part is called before which this many others stand.
fn part_name(alloc: Global, others: usize) -> Result<String, AllocError>
    ensures { IfOk result (λ name. string_bytes name ≡ part_name others) }
{
    if others == 0 {
        return Ok(String::new(alloc));
    }
    format!(in alloc; "stream {others}")
}

/// The part with these bytes, before which this many parts and lines stand.
fn new_part(alloc: Global, others: usize, bytes: &[u8], before: u64) -> Result<Part<'_>, AllocError>
    ensures { IfOk result (λ part. IsPart others bytes.now before part) }
{
    Ok(Part {
        name: part_name(alloc, others)?,
        bytes,
        before,
    })
}

/// The parts of a bundle: the document, and then the streams.
///
/// # Errors
/// Out of memory.
pub fn parts_of(alloc: Global, bundle: &[u8]) -> Result<Vec<Part<'_>>, AllocError>
    ensures { IfOk result (λ parts. ArePartsOf bundle.now parts.items) }
{
    let mut parts = Vec::new(alloc);
    let mut start = 0usize;
    let mut before = 0u64;
    let mut at = 0usize;
    let mut lines = 0u64;
    'lines: while at < bundle.len() {
        let end = at + line_length(&bundle[at..]);
        lines += 1;
        if is_separator(&bundle[at..end]) {
            let part = new_part(alloc, parts.len(), &bundle[start..at], before)?;
            parts.push(part)?;
            start = end;
            before = lines;
        }
        at = end;
    }
    let last = new_part(alloc, parts.len(), &bundle[start..], before)?;
    parts.push(last)?;
    Ok(parts)
}

/// The document of these parts, as it is explained, if there is one.
pub fn document_of<'a>(parts: &'a [Part<'_>]) -> Option<Source<'a>>
    ensures { option_map source_view result ≡ first_view parts.now }
{
    match parts.first() {
        Some(part) => Some(part.source()),
        None => None,
    }
}

/// The streams of these parts, as they are explained.
///
/// # Errors
/// Out of memory.
pub fn streams_of<'a>(
    alloc: Global,
    parts: &'a [Part<'_>],
) -> Result<Vec<SeenStream<'a>>, AllocError>
    ensures { IfOk result (λ seen. map bytes_view seen.items ≡ later_views parts.now) }
{
    let mut seen = Vec::new(alloc);
    let Some((_, streams)) = parts.split_first() else {
        return Ok(seen);
    };
    for part in streams {
        seen.push(SeenStream {
            file: "",
            source: Some(part.source()),
            failure: "",
        })?;
    }
    Ok(seen)
}
