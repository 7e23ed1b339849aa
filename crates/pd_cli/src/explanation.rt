//! Writes an explanation to the errors.
ghost use Rattle.pd_cli.specs.Explained.{IsExplained};

use app_host::write_line;
use std::io::Write;

/// Writes the text of an explanation, if one is wanted. What of it can't be written is left off.
pub(crate) fn write_explanation<E: Write>(is_wanted: bool, text: &[u8], errors: &mut E)
    ensures { IsExplained is_wanted (E.contents errors.old) (E.contents errors.new) }
{
    if is_wanted {
        write_line(text, errors);
    }
}
