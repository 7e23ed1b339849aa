//! The texts of the parts of a bundle.
ghost use Rattle.def_format.specs.Bundles.{parts_of};
ghost use Rattle.read_parts.specs.Texts.{texts_of_parts};
ghost use Rattle.std.specs.Prelude.{◌≡◌, ◌≤◌, IfOk, IfSome, Some, length, map, option_map, string_bytes};
ghost use Rattle.std.specs.Prelude.{if◌then◌else◌, None};
ghost use Rattle.std.specs.Str.{is_utf8};

use super::separators::first_separator;
use std::alloc::{AllocError, Global};

/// The text of these bytes, if they are UTF-8.
fn text_of(alloc: Global, bytes: &[u8]) -> Result<Option<String>, AllocError>
    ensures { IfOk result (λ text. option_map string_bytes text
        ≡ (if is_utf8 bytes.now then Some bytes.now else None)) }
{
    match str::from_utf8(bytes) {
        Ok(text) => Ok(Some(String::from_str(alloc, text)?)),
        Err(_) => Ok(None),
    }
}

/// The texts of the parts of a bundle, if each is UTF-8. The first is that of the document, and the others are those of
/// the streams.
///
/// # Errors
/// Out of memory.
pub fn part_texts(alloc: Global, bytes: &[u8]) -> Result<Option<Vec<String>>, AllocError>
    ensures texts { IfOk result (λ found. option_map (λ texts. map string_bytes texts.items) found
        ≡ texts_of_parts (parts_of bytes.now)) }
    ensures some { IfOk result (λ found. IfSome found (λ texts. 1 ≤ length texts.items)) }
{
    let mut texts = Vec::new(alloc);
    let mut from = 0;
    'parts: while let Some((end, next)) = first_separator(&bytes[from..]) {
        match text_of(alloc, &bytes[from..from + end])? {
            Some(text) => texts.push(text)?,
            None => return Ok(None),
        }
        from += next;
    }
    match text_of(alloc, &bytes[from..])? {
        Some(text) => texts.push(text)?,
        None => return Ok(None),
    }
    Ok(Some(texts))
}
