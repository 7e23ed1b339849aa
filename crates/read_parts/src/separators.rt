//! Where the parts of a bundle end.
ghost use Rattle.def_format.specs.Bundles.{is_separator, parts_of};
ghost use Rattle.read_parts.specs.Cuts.{IsFirstLine, IsFirstPart};
ghost use Rattle.std.specs.Prelude.{◌≡◌, ◌<◌, ◌∷◌, [], MatchOption, length};

use memchr::memchr;

/// Whether a line separates two parts. It may end in an LF.
fn is_separator(line: &[u8]) -> bool
    ensures { result ≡ is_separator line.now }
{
    line == b"---".as_slice()
        || line == b"---\r".as_slice()
        || line == b"---\n".as_slice()
        || line == b"---\r\n".as_slice()
}

/// How many bytes the first line has, with its LF if there is one.
fn line_length(bytes: &[u8]) -> usize
    requires { 0 < length bytes.now }
    ensures { IsFirstLine bytes.now result }
{
    match memchr(b'\n', bytes) {
        Some(end) => end + 1,
        None => bytes.len(),
    }
}

/// How many bytes the first part has, and how many it has with the separator after it, if there is one.
pub(crate) fn first_separator(bytes: &[u8]) -> Option<(usize, usize)>
    ensures { MatchOption result (parts_of bytes.now ≡ bytes.now ∷ [])
        (λ ends. IsFirstPart bytes.now ends.0 ends.1) }
{
    let mut at = 0;
    'lines: while at < bytes.len() {
        let end = at + line_length(&bytes[at..]);
        if is_separator(&bytes[at..end]) {
            return Some((at, end));
        }
        at = end;
    }
    None
}
