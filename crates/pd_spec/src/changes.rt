//! A document's JSON value with what is asked in place of what it has.
ghost use Rattle.std.specs.Prelude.{◌≡◌, ◌++◌, ◌&&◌, not, IfOk, OnOk, codes, decimal, map, string_bytes};
ghost use Rattle.serde_json.specs.View.{items_view, members_view, view};
ghost use Rattle.def_format.specs.Documents.{asked_predicate, asked_predicates, begins_with_equals_sign, fields_with_options, with_options, with_predicates, with_width};
ghost use Rattle.def_format.specs.Names.{is_name};
ghost use Rattle.pd_spec.specs.OwnNames.{IsOwnName, named_text};
ghost use Rattle.pd_spec.specs.Views.{options_view};

use super::options::Options;
use itoa::Buffer;
use pd_pred::is_name;
use serde_json::{Map, Value};
use std::alloc::{AllocError, Global};

/// Whether `=` is the first byte.
fn begins_with_equals_sign(bytes: &[u8]) -> bool
    ensures { result ≡ begins_with_equals_sign bytes.now }
{
    matches!(bytes, [b'=', ..])
}

/// Whether what stands before a sign is a name, and no second sign begins what stands after it.
fn are_name_and_text(before: &str, after: &str) -> bool
    ensures { result ≡ is_name before.now && not (begins_with_equals_sign after.now) }
{
    is_name(before.as_bytes()) && !begins_with_equals_sign(after.as_bytes())
}

/// The name and the text of what is asked, if it is `NAME=TEXT`.
fn own_name(asked: &str) -> Option<(&str, &str)>
    ensures { IsOwnName asked.now result }
{
    let Some((name, text)) = asked.split_once('=') else {
        return None;
    };
    if are_name_and_text(name, text) {
        return Some((name, text));
    }
    None
}

/// The name of the predicate of this number, if it has none of its own.
fn name_of_number(alloc: Global, number: u64) -> Result<String, AllocError>
    ensures { IfOk result (λ name. string_bytes name ≡ codes "ask" ++ decimal number) }
{
    let mut name = String::from_str(alloc, "ask")?;
    name.push_str(Buffer::new().format(number))?;
    Ok(name)
}

/// The predicate with this name and this text, as a document has it.
fn predicate_of(alloc: Global, name: String, text: &str) -> Result<Value, AllocError>
    ensures { IfOk result (λ value. view value ≡ named_text (string_bytes name) text.now) }
{
    let mut fields = Map::new(alloc);
    fields.insert(String::from_str(alloc, "name")?, Value::String(name))?;
    fields.insert(
        String::from_str(alloc, "text")?,
        Value::String(String::from_str(alloc, text)?),
    )?;
    Ok(Value::Object(fields))
}

/// The predicate of this number that is asked, as a document has it.
fn asked_predicate(alloc: Global, number: u64, asked: &str) -> Result<Value, AllocError>
    ensures { IfOk result (λ value. view value ≡ asked_predicate number asked.now) }
{
    match own_name(asked) {
        Some((name, text)) => {
            let name = String::from_str(alloc, name)?;
            predicate_of(alloc, name, text)
        }
        None => {
            let name = name_of_number(alloc, number)?;
            predicate_of(alloc, name, asked)
        }
    }
}

/// The predicates that are asked, as a document has them, numbered from 1 on.
fn asked_predicates(alloc: Global, texts: &[&str]) -> Result<Vec<Value>, AllocError>
    ensures { IfOk result (λ values. items_view values.items ≡ asked_predicates 1 (map (λ text. text.now) texts.now)) }
{
    let mut values = Vec::new(alloc);
    for text in texts {
        let number = values.len() as u64 + 1;
        values.push(asked_predicate(alloc, number, text)?)?;
    }
    Ok(values)
}

/// Puts the width into the fields of a document, if one is asked for.
fn put_width(
    alloc: Global,
    fields: &mut Map<String, Value>,
    width: Option<u64>,
) -> Result<(), AllocError>
    ensures { OnOk result (members_view fields.new.entries ≡ with_width width (members_view fields.old.entries)) }
{
    if let Some(width) = width {
        fields.insert(String::from_str(alloc, "width")?, Value::from(width))?;
    }
    Ok(())
}

/// Puts the predicates into the fields of a document, if some are asked for.
fn put_predicates(
    alloc: Global,
    fields: &mut Map<String, Value>,
    texts: &[&str],
) -> Result<(), AllocError>
    ensures { OnOk result (members_view fields.new.entries
        ≡ with_predicates (map (λ text. text.now) texts.now) (members_view fields.old.entries)) }
{
    if !texts.is_empty() {
        let values = asked_predicates(alloc, texts)?;
        fields.insert(String::from_str(alloc, "predicates")?, Value::Array(values))?;
    }
    Ok(())
}

/// The fields of a document with what is asked.
fn fields_with_options(
    alloc: Global,
    fields: Map<String, Value>,
    options: &Options<'_>,
) -> Result<Map<String, Value>, AllocError>
    ensures { IfOk result (λ changed. members_view changed.entries
        ≡ fields_with_options (options_view options.now) (members_view fields.entries)) }
{
    let mut changed = fields;
    put_width(alloc, &mut changed, options.width)?;
    put_predicates(alloc, &mut changed, &options.predicates)?;
    Ok(changed)
}

/// A document's value with what is asked in place of what it has. A value that is no object stays as it is.
///
/// # Errors
/// Out of memory.
pub(crate) fn with_options(
    alloc: Global,
    value: Value,
    options: &Options<'_>,
) -> Result<Value, AllocError>
    ensures { IfOk result (λ changed. view changed ≡ with_options (options_view options.now) (view value)) }
{
    match value {
        Value::Object(fields) => Ok(Value::Object(fields_with_options(alloc, fields, options)?)),
        other => Ok(other),
    }
}
