//! The line of a value.
ghost use Rattle.out_lines.specs.Lines.{line_text};
ghost use Rattle.serde_json.specs.View.{view};
ghost use Rattle.serde_json.specs.Written.{has_float};
ghost use Rattle.std.specs.Prelude.{◌≡◌, IfOk, false};

use serde_json::Value;
use std::alloc::{AllocError, Global};

/// The line of a value in which no number is a float.
pub(crate) fn line_of(alloc: Global, value: &Value) -> Result<Vec<u8>, AllocError>
    requires { has_float (view value.now) ≡ false }
    ensures { IfOk result (λ line. line.items ≡ line_text (view value.now)) }
{
    let mut line = value.to_vec(alloc)?;
    line.push(b'\n')?;
    Ok(line)
}
