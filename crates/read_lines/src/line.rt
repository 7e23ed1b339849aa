//! A line of an input.
ghost use Rattle.read_lines.specs.GivenLines.{IsLine};
ghost use Rattle.read_lines.specs.Steps.{IsKept};
ghost use Rattle.std.specs.Prelude.{◌≡◌, ◌<◌, ◌++◌, [], IfNone, IfSome, List, OnOk, length, ℕ};

use std::alloc::AllocError;

/// The most bytes of a line that is given whole, its LF aside: 128 MiB.
pub const LINE_LIMIT: usize = 134_217_728;

/// A line of an input.
#[derive(Debug, Drop)]
pub enum Line {
    /// Its bytes, without its LF.
    Whole(Vec<u8>),
    /// It has more than `LINE_LIMIT` bytes, its LF aside.
    Long,
}

/// Adds bytes to those that are kept of a line, unless these are too many already.
///
/// # Errors
/// If memory runs out.
pub(crate) fn keep(line: &mut Vec<u8>, bytes: &[u8]) -> Result<(), AllocError>
    ensures { OnOk result ((part : List ℕ) → IsKept line.old.items part
        → IsKept line.new.items (part ++ bytes.now)) }
{
    if line.len() > LINE_LIMIT {
        return Ok(());
    }
    line.extend_from_slice(bytes)
}

/// The line of which these bytes are kept.
pub(crate) fn line_of(kept: Vec<u8>) -> Line
    ensures { (part : List ℕ) → IsKept kept.items part → IsLine result part }
{
    if kept.len() > LINE_LIMIT {
        return Line::Long;
    }
    Line::Whole(kept)
}

/// The last line of an input, which no LF ends: the one of which these bytes are kept, if it isn't empty.
pub(crate) fn last_line(kept: Vec<u8>) -> Option<Line>
    ensures none { IfNone result ((part : List ℕ) → IsKept kept.items part → part ≡ []) }
    ensures some { IfSome result (λ line. (part : List ℕ) → IsKept kept.items part
        → IsLine line part × (0 < length part)) }
{
    if kept.is_empty() {
        return None;
    }
    Some(line_of(kept))
}
