//! Writes a line to the errors.
ghost use Rattle.app_arguments.specs.Statuses.{WritesUpTo};
ghost use Rattle.std.specs.Io.KnownBytes.{Appends, Keeps};
ghost use Rattle.std.specs.Prelude.{◌≡◌, ◌≤◌, IfSome, None, length, take};

use std::io::{ErrorKind, Write};

/// One write, and how many bytes it took: none if it was interrupted. There is no number if it fails otherwise, or
/// takes nothing.
fn write_once<E: Write>(text: &[u8], errors: &mut E) -> Option<usize>
    ensures some { IfSome result (λ count. (count ≤ length text.now)
        × Appends (E.contents errors.old) (E.contents errors.new) (take count text.now)) }
    ensures none { result ≡ None → Keeps (E.contents errors.old) (E.contents errors.new) }
{
    match errors.write(text) {
        Ok(0) => None,
        Ok(count) => Some(count),
        Err(error) if error.kind() == ErrorKind::Interrupted => Some(0),
        Err(_) => None,
    }
}

/// Writes the text, up to the first write that fails or takes nothing. An interrupted write is asked for again.
pub fn write_line<E: Write>(text: &[u8], errors: &mut E)
    ensures { WritesUpTo (λ written. written ≡ text.now) (E.contents errors.old) (E.contents errors.new) }
{
    let mut taken = 0;
    'writes: for _ in 0..u64::MAX {
        if taken >= text.len() {
            return;
        }
        let Some(count) = write_once(&text[taken..], errors) else {
            return;
        };
        taken += count;
    }
}
