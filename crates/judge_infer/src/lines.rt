//! The first line of some bytes.
ghost use Rattle.def_format.specs.Lines.{all_lines, as_line, is_blank};
ghost use Rattle.std.specs.Prelude.{◌≡◌, ◌<◌, ◌∷◌, length, MatchOption};

use memchr::memchr;

/// The first line that an LF ends, and the bytes after that LF, if there is one.
pub(crate) fn first_line(bytes: &[u8]) -> Option<(&[u8], &[u8])>
    ensures { MatchOption result (all_lines bytes.now ≡ as_line bytes.now)
        (λ parts. (all_lines bytes.now ≡ parts.0.now ∷ all_lines parts.1.now)
        × (length parts.1.now < length bytes.now)) }
{
    let end = memchr(b'\n', bytes)?;
    Some((&bytes[..end], &bytes[end + 1..]))
}

/// Whether there is nothing but spaces, tabs and CRs.
pub(crate) fn is_blank(bytes: &[u8]) -> bool
    ensures { result ≡ is_blank bytes.now }
{
    bytes
        .iter()
        .all(|byte| *byte == b' ' || *byte == b'\t' || *byte == b'\r')
}
