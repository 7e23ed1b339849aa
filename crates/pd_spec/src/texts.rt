//! The text of a document with what is asked.
ghost use Rattle.std.specs.Prelude.{IfOk};
ghost use Rattle.def_format.specs.Documents.{inquiry_of};
ghost use Rattle.pd_spec.specs.Texts.{IsDocumentText};
ghost use Rattle.pd_spec.specs.Views.{options_view};

use super::changes::with_options;
use super::json_bytes::json_value;
use super::options::Options;
use std::alloc::{AllocError, Global};

/// The text of the document that these bytes are, with what is asked in place of what it has: the bytes themselves if
/// its fields stay as they are or if they are no JSON, and otherwise the changed value without spaces.
///
/// Whether predicates are answered beyond the width is no part of the text.
///
/// # Errors
/// Out of memory.
pub fn document_text(
    alloc: Global,
    bytes: &[u8],
    options: &Options<'_>,
) -> Result<Vec<u8>, AllocError>
    ensures { IfOk result (λ text. IsDocumentText (inquiry_of (options_view options.now) bytes.now) text.items) }
{
    if options.keep_fields() {
        let own = bytes.to_vec(alloc)?;
        return Ok(own);
    }
    let Some(value) = json_value(alloc, bytes)? else {
        let own = bytes.to_vec(alloc)?;
        return Ok(own);
    };
    let changed = with_options(alloc, value, options)?;
    let text = changed.to_vec(alloc)?;
    Ok(text)
}
