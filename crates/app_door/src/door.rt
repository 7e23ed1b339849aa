//! What a connection has to say before it is a stream.
ghost use Rattle.app_door.specs.Doors.{IsStart, IsToken, IsTokenRead, token_view};
ghost use Rattle.app_door.specs.declared.door.Said.TheVariants as saids;
ghost use Rattle.app_text.specs.Lines.{without_cr};
ghost use Rattle.def_format.specs.Lines.{has_line_feed, line_feed};
ghost use Rattle.std.specs.Io.KnownBytes.{Consumes, IsAtEnd};
ghost use Rattle.std.specs.Prelude.{◌≡◌, ◌⊎◌, ◌↔◌, ◌≤◌, ◌++◌, ◌∷◌, ℕ, List, [], IfOk, IsTrue, drop, false, length, true};

use super::place_connection::bytes_after;
use app_arguments::TOKEN_LIMIT;
use app_text::{cut_line, line_at};
use pd_frames::has_line_feed;
use pd_spec::Spec;
use std::alloc::Global;
use std::io;
use std::io::{ErrorKind, Read};

/// What a connection has to say before it is a stream: a token, if there is one, and then which process it joins.
#[derive(Drop)]
pub struct Door<'a> {
    /// The document of the session, whose processes may be joined.
    pub spec: &'a Spec,
    /// The line that has to come first, if there is to be one.
    pub token: Option<Vec<u8>>,
}

/// Whether both are the same bytes. It takes as long for all bytes of one length, so nobody learns a token byte by
/// byte.
fn is_same(token: &[u8], line: &[u8]) -> bool
    ensures { IsTrue result ↔ (line.now ≡ token.now) }
{
    if token.len() != line.len() {
        return false;
    }
    let mut differs = false;
    for i in 0..token.len() {
        differs |= token[i] != line[i];
    }
    !differs
}

/// The bytes before the first line feed.
fn first_line(bytes: &[u8]) -> &[u8]
    requires { has_line_feed bytes.now ≡ true }
    ensures { (rest : List ℕ) × (bytes.now ≡ result.now ++ line_feed ∷ rest) × (has_line_feed result.now ≡ false) }
{
    cut_line(bytes).0
}

/// A line without a carriage return at its end.
fn bare_line(line: &[u8]) -> &[u8]
    requires { has_line_feed line.now ≡ false }
    ensures { result.now ≡ without_cr line.now }
{
    line_at(line, 1)
}

/// Whether a line is the token, with a carriage return at its end or without.
fn says_token(token: &[u8], line: &[u8]) -> bool
    requires { has_line_feed line.now ≡ false }
    ensures { IsTrue result ↔ IsToken token.now line.now }
{
    if is_same(token, bare_line(line)) {
        return true;
    }
    is_same(token, line)
}

/// What stands first of the bytes of a connection.
#[derive(Clone, Copy)]
pub(crate) enum Said {
    /// No whole line, where a token is due.
    Nothing,
    /// Something that isn't the token, where it is due.
    Else,
    /// What is due: the stream begins after this many bytes.
    Start(usize),
}

impl<'a> Door<'a> {
    /// What stands first of these bytes.
    pub(crate) fn said_first(&self, bytes: &[u8]) -> Said
        ensures start { (count : ℕ) → result ≡ saids.Start count
            → (count ≤ length bytes.now) × IsStart (token_view self.now.token) (drop count bytes.now) bytes.now }
        ensures due { result ≡ saids.Nothing → has_line_feed bytes.now ≡ false }
        ensures other { result ≡ saids.Else → (start : List ℕ)
            → ¬ (IsStart (token_view self.now.token) start bytes.now) }
    {
        let Some(token) = &self.token else {
            return Said::Start(0);
        };
        if !has_line_feed(bytes) {
            return if bytes.len() > TOKEN_LIMIT + 1 {
                Said::Else
            } else {
                Said::Nothing
            };
        }
        let line = first_line(bytes);
        if says_token(token, line) {
            Said::Start(line.len() + 1)
        } else {
            Said::Else
        }
    }

    /// What of these bytes may be shown: those of a stream, and no token nor what may be a part of one.
    pub(crate) fn shown_start<'b>(&self, bytes: &'b [u8]) -> &'b [u8]
        ensures { (result.now ≡ []) ⊎ IsStart (token_view self.now.token) result.now bytes.now }
    {
        match self.said_first(bytes) {
            Said::Start(count) => bytes_after(bytes, count),
            Said::Nothing | Said::Else => &[],
        }
    }
}

/// The token that is this line.
///
/// # Errors
/// If the line is empty or has more than 1,024 bytes, or out of memory.
fn token_of(alloc: Global, line: &[u8]) -> io::Result<Vec<u8>>
    ensures { IfOk result (λ token. token.items ≡ line.now) }
{
    if line.is_empty() || line.len() > TOKEN_LIMIT {
        return Err(io::Error::from(ErrorKind::InvalidData));
    }
    Ok(Vec::from_slice(alloc, line)?)
}

/// Reads a file until its first line is whole, or to its end.
///
/// # Errors
/// If a read fails, or the line is longer than a token, or out of memory.
fn read_start<F: Read>(alloc: Global, file: &mut F) -> io::Result<Vec<u8>>
    ensures { IfOk result (λ start. Consumes (F.remaining file.old) (F.remaining file.new) start.items
        × ((has_line_feed start.items ≡ true) ⊎ IsAtEnd (F.remaining file.new))) }
{
    let mut start = Vec::new(alloc);
    let mut piece = [0u8; TOKEN_LIMIT];
    for _read in 0..u64::MAX {
        let count = file.read(&mut piece)?;
        start.extend_from_slice(&piece[..count])?;
        if count == 0 {
            return Ok(start);
        }
        if has_line_feed(&start) {
            return Ok(start);
        }
        if start.len() > TOKEN_LIMIT + 2 {
            break;
        }
    }
    Err(io::Error::from(ErrorKind::InvalidData))
}

/// Reads the token of a file: its first line.
///
/// # Errors
/// If a read fails, or the line is empty or has more than 1,024 bytes, or out of memory.
pub fn read_token<F: Read>(alloc: Global, file: &mut F) -> io::Result<Vec<u8>>
    ensures { IfOk result (λ token. IsTokenRead (F.remaining file.old) (F.remaining file.new) token.items) }
{
    let start = read_start(alloc, file)?;
    token_of(alloc, line_at(&start, 1))
}
