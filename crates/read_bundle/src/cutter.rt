//! Cuts a bundle that comes in pieces into its parts.
ghost use Rattle.read_bundle.specs.Cutting.{EndsLine, IsCut, IsInLine, IsNoSeparator, IsRun, line_marks, parts_from, parts_in_line};
ghost use Rattle.read_bundle.specs.declared.cutter.Cutter.TheVariants as cutters;
ghost use Rattle.def_format.specs.Bundles.{onto_part, parts_of};
ghost use Rattle.std.specs.Bool.{OnFalse, OnTrue};
ghost use Rattle.std.specs.Prelude.{◌≡◌, ◌+◌, ◌++◌, ◌<◌, ◌≤◌, ◌∷◌, [], List, ℕ, MatchOption, length, take};

use memchr::memchr;

/// Where in a line the next byte of a bundle stands.
#[derive(Clone, Copy, Debug)]
pub enum Cutter {
    /// After this many bytes of `---` and a CR, from the line's start: they are held back.
    Held(u64),
    /// In a line that is no separator.
    Inside,
}

/// What the first bytes of a piece are.
#[derive(Clone, Copy, Debug)]
pub enum Cutting {
    /// The first byte is held back.
    Hold,
    /// The first byte ends a separator, and so the part.
    Separator,
    /// This many bytes that were held back, and then this many of the piece, belong to the part.
    Part(u64, usize),
}

/// The first bytes of a separator, at most this many.
pub fn marks(count: u64) -> &'static [u8]
    ensures { result.now ≡ take count line_marks }
{
    match count {
        0 => b"",
        1 => b"-",
        2 => b"--",
        3 => b"---",
        _ => b"---\r",
    }
}

/// Whether this byte ends a separator of which this many bytes are held back.
fn ends_separator(held: u64, byte: u8) -> bool
    ensures yes { OnTrue result ((rest : List ℕ) → parts_from (cutters.Held held) (byte ∷ rest) ≡ [] ∷ parts_of rest) }
    ensures no { OnFalse result (3 ≤ held → byte ≡ 10 → ⊥) }
{
    byte == b'\n' && held >= 3
}

/// Whether this byte is held back too.
fn is_held(held: u64, byte: u8) -> bool
    ensures few { OnTrue result (held < 4) }
    ensures yes { OnTrue result (take (held + 1) line_marks ≡ take held line_marks ++ byte ∷ []) }
    ensures no { OnFalse result ((3 ≤ held → byte ≡ 10 → ⊥) → (rest : List ℕ)
        → parts_from (cutters.Held held) (byte ∷ rest)
        ≡ onto_part (take held line_marks) (parts_in_line (byte ∷ rest))) }
{
    if held < 3 {
        return byte == b'-';
    }
    held == 3 && byte == b'\r'
}

/// How many bytes the rest of the line has, with its LF, if it ends in these bytes.
fn line_end(bytes: &[u8]) -> Option<usize>
    ensures { MatchOption result (IsInLine bytes.now) (EndsLine bytes.now) }
{
    match memchr(b'\n', bytes) {
        Some(end) => Some(end + 1),
        None => None,
    }
}

/// Whether the line that begins with these bytes may be a separator.
fn may_separate(bytes: &[u8]) -> bool
    ensures { OnFalse result (IsNoSeparator bytes.now) }
{
    match bytes.first() {
        Some(byte) => *byte == b'-',
        None => true,
    }
}

/// How many bytes of the piece, in a line that is no separator, come before a line that may be one, and where the next
/// byte stands.
fn run_of(piece: &[u8]) -> (usize, Cutter)
    requires { 0 < length piece.now }
    ensures { IsRun piece.now result.0 result.1 }
{
    let mut at = 0;
    'lines: while at < piece.len() {
        match line_end(&piece[at..]) {
            Some(end) => {
                at += end;
                if may_separate(&piece[at..]) {
                    return (at, Cutter::Held(0));
                }
            }
            None => return (piece.len(), Cutter::Inside),
        }
    }
    (at, Cutter::Inside)
}

impl Cutter {
    /// Takes the first bytes of a piece that isn't empty.
    pub fn cut(&mut self, piece: &[u8]) -> Cutting
        requires { 0 < length piece.now }
        ensures { IsCut self.old self.new piece.now result }
    {
        match *self {
            Cutter::Inside => {
                let (count, after) = run_of(piece);
                *self = after;
                Cutting::Part(0, count)
            }
            Cutter::Held(held) => {
                if ends_separator(held, piece[0]) {
                    *self = Cutter::Held(0);
                    return Cutting::Separator;
                }
                if is_held(held, piece[0]) {
                    *self = Cutter::Held(held + 1);
                    return Cutting::Hold;
                }
                let (count, after) = run_of(piece);
                *self = after;
                Cutting::Part(held, count)
            }
        }
    }
}
