//! The lines of bytes, and places in them.
ghost use Rattle.def_format.specs.Lines.{all_lines, is_blank as is_blank_line, line_number, unended_line};
ghost use Rattle.app_text.specs.Lines.{IsCut, IsFirstRecord, begins_with, is_plain_byte, is_plain_name, last_or, only_place, places_from, quoted, record_view, records, records_from, sure_places, without_cr};
ghost use Rattle.std.specs.List.{list_any};
ghost use Rattle.std.specs.Option.{option_copied, option_map, unwrap_or};
ghost use Rattle.std.specs.Prelude.{◌≡◌, ◌+◌, ◌-◌, ◌<◌, ◌≤◌, ◌^◌, [], ◌∷◌, ◌==◌, length, drop, take, slice_index_or, slice_get, MatchOption, IfSome};

use memchr::memchr;

/// The bytes before the first LF, and those after it, if there is one.
pub fn cut_line(bytes: &[u8]) -> (&[u8], Option<&[u8]>)
    ensures { IsCut bytes.now result.0.now (option_copied result.1) }
{
    match memchr(b'\n', bytes) {
        Some(end) => (&bytes[..end], Some(&bytes[end + 1..])),
        None => (bytes, None),
    }
}

/// The bytes without a CR at their end.
fn without_cr(line: &[u8]) -> &[u8]
    ensures { result.now ≡ without_cr line.now }
{
    match line.split_last() {
        Some((last, rest)) => if *last == b'\r' { rest } else { line },
        None => line,
    }
}

/// Whether a line is passed over: it has nothing but spaces, tabs and CRs.
fn is_blank(line: &[u8]) -> bool
    ensures { result ≡ is_blank_line line.now }
{
    line.iter()
        .all(|byte| *byte == b' ' || *byte == b'\t' || *byte == b'\r')
}

/// The line with this number, counted from 1, without its LF. It is empty if there is none.
pub fn line_at(bytes: &[u8], number: u64) -> &[u8]
    ensures { result.now ≡ without_cr (slice_index_or (all_lines bytes.now) (number - 1) []) }
{
    let mut rest = bytes;
    for _line in 1..number {
        let (_, after) = cut_line(rest);
        rest = match after {
            Some(after) => after,
            None => return &[],
        };
    }
    without_cr(cut_line(rest).0)
}

/// A line that isn't blank, and what follows it.
#[derive(Clone, Copy)]
pub struct Record<'a> {
    /// The number of the line, counted from 1.
    pub line: u64,
    /// Its bytes.
    pub bytes: &'a [u8],
    /// The bytes after it.
    pub after: &'a [u8],
}

/// What comes after a line's LF: nothing if the line has none.
fn rest_after(after: Option<&[u8]>) -> &[u8]
    ensures { result.now ≡ unwrap_or (option_copied after.entry) [] }
{
    match after {
        Some(rest) => rest,
        None => &[],
    }
}

/// The first line of the bytes that isn't blank, if there is one. This many lines stand before the bytes.
pub fn next_record(bytes: &[u8], lines_before: u64) -> Option<Record<'_>>
    ensures first { lines_before + length bytes.now < 2 ^ 64 →
        MatchOption result (records_from (lines_before + 1) bytes.now ≡ [])
        (λ found. IsFirstRecord (records_from (lines_before + 1) bytes.now) found) }
    ensures room { lines_before + length bytes.now < 2 ^ 64 →
        IfSome result (λ found. found.line + length found.after.now ≤ lines_before + length bytes.now) }
{
    let mut rest = bytes;
    let mut line = lines_before;
    'lines: while !rest.is_empty() {
        let (found, after) = cut_line(rest);
        line = line.saturating_add(1);
        let after = rest_after(after);
        if is_blank(found) {
            rest = after;
        } else {
            return Some(Record {
                line,
                bytes: without_cr(found),
                after,
            });
        }
    }
    None
}

/// The record before which this many others stand, where blank lines are no records.
pub fn record_after(bytes: &[u8], passed: u64) -> Option<Record<'_>>
    ensures { option_map record_view result ≡ slice_get (records bytes.now) passed }
{
    let mut rest = bytes;
    let mut line = 0u64;
    for _record in 0..passed {
        let found = next_record(rest, line)?;
        rest = found.after;
        line = found.line;
    }
    next_record(rest, line)
}

/// The bytes before this place.
pub fn bytes_before(bytes: &[u8], place: usize) -> &[u8]
    ensures { result.now ≡ take place bytes.now }
{
    &bytes[..place.min(bytes.len())]
}

/// The bytes from this place on.
pub fn bytes_from(bytes: &[u8], place: usize) -> &[u8]
    ensures { result.now ≡ drop place bytes.now }
{
    &bytes[place.min(bytes.len())..]
}

/// The number of the line, counted from 1, in which this place stands, and where that line begins.
pub fn line_of_place(bytes: &[u8], place: usize) -> (u64, usize)
    ensures line { result.0 ≡ line_number (take place bytes.now) }
    ensures start { result.1 + length (unended_line (take place bytes.now)) ≡ length (take place bytes.now) }
{
    let before = bytes_before(bytes, place);
    let mut line = 1u64;
    let mut start = 0usize;
    for (index, byte) in before.iter().enumerate() {
        if *byte == b'\n' {
            line = line.saturating_add(1);
            start = index.saturating_add(1);
        }
    }
    (line, start)
}

/// Whether a quote begins the bytes.
fn is_quote_first(bytes: &[u8]) -> bool
    ensures { result ≡ begins_with (34 ∷ []) bytes.now }
{
    match bytes.split_first() {
        Some((first, _)) => b'"' == *first,
        None => false,
    }
}

/// Whether the name stands between two quotes at the start of the bytes.
fn is_quoted_first(bytes: &[u8], name: &[u8]) -> bool
    ensures { result ≡ begins_with (quoted name.now) bytes.now }
{
    if !is_quote_first(bytes) {
        return false;
    }
    let rest = bytes_from(bytes, 1);
    if !rest.starts_with(name) {
        return false;
    }
    is_quote_first(bytes_from(rest, name.len()))
}

/// Whether a name between two quotes can be nothing but a text of a JSON value without escapes: it begins as nothing
/// does that stands between two texts.
fn is_found_surely(name: &[u8]) -> bool
    ensures { result ≡ is_plain_name name.now }
{
    match name.split_first() {
        Some((first, _)) => is_plain_byte(*first),
        None => false,
    }
}

/// Whether a byte is a letter, a digit, `_` or `-`.
fn is_plain_byte(byte: u8) -> bool
    ensures { result ≡ is_plain_byte byte }
{
    byte.is_ascii_alphanumeric() || byte == b'_' || byte == b'-'
}

/// Whether bytes have an escape of JSON.
fn has_escape(bytes: &[u8]) -> bool
    ensures { result ≡ list_any (λ byte. byte == 92) bytes.now }
{
    bytes.iter().any(|byte| *byte == b'\\')
}

/// Where the name stands between two quotes, if that is sure: there is one such place, and no escape could hide
/// another. The place is that of the first quote.
pub fn place_of_name(bytes: &[u8], name: &str) -> Option<usize>
    ensures { result ≡ only_place (sure_places name.now bytes.now) }
{
    let (count, place) = places_of_name(bytes, name);
    if count == 1 { Some(place) } else { None }
}

/// How often the name stands between two quotes, and the last place where it does; none where that isn't sure.
pub fn places_of_name(bytes: &[u8], name: &str) -> (u64, usize)
    ensures count { result.0 ≡ length (sure_places name.now bytes.now) }
    ensures last { result.1 ≡ last_or 0 (sure_places name.now bytes.now) }
{
    let name = name.as_bytes();
    if !is_found_surely(name) {
        return (0, 0);
    }
    if has_escape(bytes) {
        return (0, 0);
    }
    all_places(bytes, name)
}

/// How often the name stands between two quotes, and the last place where it does.
fn all_places(bytes: &[u8], name: &[u8]) -> (u64, usize)
    ensures count { result.0 ≡ length (places_from 0 (quoted name.now) bytes.now) }
    ensures last { result.1 ≡ last_or 0 (places_from 0 (quoted name.now) bytes.now) }
{
    let mut count = 0u64;
    let mut last = 0usize;
    for place in 0..bytes.len() {
        if is_quoted_first(bytes_from(bytes, place), name) {
            count = count.saturating_add(1);
            last = place;
        }
    }
    (count, last)
}
