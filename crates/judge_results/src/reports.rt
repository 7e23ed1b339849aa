//! The reports of runs, as parts of a text.
ghost use Rattle.def_format.specs.Lines.{line_feed};
ghost use Rattle.json.specs.Print.{quoted};
ghost use Rattle.judge_results.specs.Results.{report_data};
ghost use Rattle.serde_json.specs.Data.{Data};
ghost use Rattle.serde_json.specs.Written.{compact_text};
ghost use Rattle.std.specs.Ffi.{without_last};
ghost use Rattle.std.specs.Prelude.{◌≡◌, ◌++◌, ◌∷◌, [], IfOk, OnOk, drop};

use pd_report::push_bytes;
use serde_json::Value;
use std::alloc::{AllocError, Global};

/// A text without its last byte.
pub(crate) fn without_end(text: &[u8]) -> &[u8]
    ensures { result.now ≡ without_last text.now }
{
    match text.split_last() {
        Some((_, rest)) => rest,
        None => text,
    }
}

/// A text without its first byte.
pub(crate) fn without_begin(text: &[u8]) -> &[u8]
    ensures { result.now ≡ drop 1 text.now }
{
    match text.split_first() {
        Some((_, rest)) => rest,
        None => text,
    }
}

/// A name as a JSON text.
fn quoted_name(alloc: Global, name: &str) -> Result<Vec<u8>, AllocError>
    ensures { IfOk result (λ text. text.items ≡ quoted name.now) }
{
    let value = Value::try_from_str(alloc, name)?;
    let text = value.to_vec(alloc)?;
    Ok(text)
}

/// Appends the report of the run of this name after a comma. The text is the line of the report.
///
/// # Errors
/// Out of memory.
pub(crate) fn push_report(
    out: &mut Vec<u8>,
    alloc: Global,
    name: &str,
    text: &[u8],
) -> Result<(), AllocError>
    ensures { OnOk result ((report : Data) → text.now ≡ compact_text report ++ line_feed ∷ []
        → out.new.items ≡ out.old.items ++ 44 ∷ compact_text (report_data name.now report)) }
{
    let quoted = quoted_name(alloc, name)?;
    push_bytes(out, b",{\"name\":")?;
    push_bytes(out, &quoted)?;
    push_bytes(out, b",\"report\":")?;
    push_bytes(out, without_end(text))?;
    push_bytes(out, b"}")?;
    Ok(())
}
