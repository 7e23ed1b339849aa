//! The JSON value of bytes.
ghost use Rattle.std.specs.Prelude.{◌≡◌, true, false, option_map, IfOk};
ghost use Rattle.serde_json.specs.View.{view};
ghost use Rattle.def_format.specs.Records.{json_value};

use serde_json::{Category, Value};
use std::alloc::{AllocError, Global};

/// Whether errors of this category come of memory that ran out.
fn is_memory(category: Category) -> bool
    ensures yes { result ≡ true → category ≡ Category.Memory }
    ensures no { result ≡ false → ¬ (category ≡ Category.Memory) }
{
    matches!(category, Category::Memory)
}

/// The value that the bytes are in JSON, if they are one.
///
/// # Errors
/// Out of memory.
pub fn json_value(alloc: Global, bytes: &[u8]) -> Result<Option<Value>, AllocError>
    ensures { IfOk result (λ found. option_map view found ≡ json_value bytes.now) }
{
    match Value::from_slice(alloc, bytes) {
        Ok(value) => Ok(Some(value)),
        Err(error) => {
            if is_memory(error.classify()) {
                Err(AllocError)
            } else {
                Ok(None)
            }
        }
    }
}
