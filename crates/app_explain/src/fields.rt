//! The texts of fields of lines.
ghost use Rattle.app_explain.specs.Fields.{text_in};
ghost use Rattle.serde_json.specs.Find.{as_str, get};
ghost use Rattle.serde_json.specs.View.{view};
ghost use Rattle.std.specs.Option.{option_map, option_and_then};
ghost use Rattle.std.specs.Prelude.{◌≡◌, string_bytes, IfOk};

use pd_spec::{json_value, value_at};
use serde_json::Value;
use std::alloc::{AllocError, Global};

/// The text of this field of a value, if it is an object that has such a field.
fn text_of<'a>(value: &'a Value, field: &str) -> Option<&'a str>
    ensures { option_map (λ text. text.now) result ≡ option_and_then as_str (get field.now (view value.now)) }
{
    let fields = value.as_object()?;
    value_at(fields, field)?.as_str()
}

/// The text of this field of a line, if that is a JSON object that has such a field.
///
/// # Errors
/// Out of memory.
pub(crate) fn text_in_line(
    alloc: Global,
    line: &[u8],
    field: &str,
) -> Result<Option<String>, AllocError>
    ensures { IfOk result (λ found. option_map string_bytes found ≡ text_in field.now line.now) }
{
    let Some(value) = json_value(alloc, line)? else {
        return Ok(None);
    };
    match text_of(&value, field) {
        Some(text) => Ok(Some(String::from_str(alloc, text)?)),
        None => Ok(None),
    }
}
