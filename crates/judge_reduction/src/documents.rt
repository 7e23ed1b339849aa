//! The text of the document of a reduced session.
use pd_spec::{Options, document_text, json_value};
use serde_json::{Map, Value};
use std::alloc::{AllocError, Global};

/// The items at these places of a list.
fn items_at(alloc: Global, items: &[Value], places: &[usize]) -> Result<Vec<Value>, AllocError> {
    let mut found = Vec::with_capacity(alloc, places.len())?;
    for &place in places {
        if place < items.len() {
            found.push(items[place].clone()?)?;
        }
    }
    Ok(found)
}

/// The processes at these places of a document with these fields, or `None` if it has no list of processes.
fn processes_at(
    alloc: Global,
    fields: &Map<String, Value>,
    places: &[usize],
) -> Result<Option<Vec<Value>>, AllocError> {
    match fields.get("processes") {
        Some(Value::Array(processes)) => Ok(Some(items_at(alloc, processes, places)?)),
        _ => Ok(None),
    }
}

/// The fields of a document with the processes at these places alone, and with version 2, by which a message may have
/// several receivers. It is `None` if there is no list of processes.
fn session_fields(
    alloc: Global,
    fields: Map<String, Value>,
    places: &[usize],
) -> Result<Option<Map<String, Value>>, AllocError> {
    let Some(processes) = processes_at(alloc, &fields, places)? else {
        return Ok(None);
    };
    let mut changed = fields;
    changed.insert(
        String::from_str(alloc, "processes")?,
        Value::Array(processes),
    )?;
    changed.insert(String::from_str(alloc, "version")?, Value::from(2u64))?;
    Ok(Some(changed))
}

/// The text of the document in these bytes, with what is asked in place of what it has, with the processes at these
/// places alone, and with version 2. It is `None` if the bytes are no JSON object with a list of processes.
///
/// # Errors
/// An allocation was refused.
pub(crate) fn session_document(
    alloc: Global,
    document: &[u8],
    options: &Options<'_>,
    places: &[usize],
) -> Result<Option<Vec<u8>>, AllocError> {
    let text = document_text(alloc, document, options)?;
    let Some(Value::Object(fields)) = json_value(alloc, &text)? else {
        return Ok(None);
    };
    let Some(changed) = session_fields(alloc, fields, places)? else {
        return Ok(None);
    };
    let bytes = Value::Object(changed).to_vec(alloc)?;
    Ok(Some(bytes))
}
