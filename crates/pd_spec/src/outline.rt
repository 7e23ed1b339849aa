//! The outline of a document: its parts, borrowed from the JSON value.
ghost use Rattle.std.specs.Prelude.{◌≡◌, IfOk, map, option_map};
ghost use Rattle.serde_json.specs.View.{view, items_view};
ghost use Rattle.def_format.specs.Documents.{each, outline_of};
ghost use Rattle.pd_spec.specs.Outlines.{process_in, predicate_in, process_view, predicate_outline_view, outline_view};

use super::fields::{array_at, has_only, object_at, text_at, value_at};
use serde_json::{Map, Value};
use std::alloc::{AllocError, Global};

/// A process with its variables and their initial values.
#[derive(Clone, Copy)]
pub(crate) struct ProcessOutline<'a> {
    pub(crate) name: &'a str,
    pub(crate) vars: &'a Map<String, Value>,
}

/// A predicate with its text.
#[derive(Clone, Copy)]
pub(crate) struct PredicateOutline<'a> {
    pub(crate) name: &'a str,
    pub(crate) text: &'a str,
}

/// A document of right shape.
#[derive(Drop)]
pub(crate) struct Outline<'a> {
    pub(crate) processes: Vec<ProcessOutline<'a>>,
    pub(crate) predicates: Vec<PredicateOutline<'a>>,
    pub(crate) width: Option<&'a Value>,
    pub(crate) version: Option<&'a Value>,
}

fn process_outline(value: &Value) -> Option<ProcessOutline<'_>>
    ensures { option_map process_view result ≡ process_in (view value.now) }
{
    let fields = value.as_object()?;
    if !has_only(&["name", "vars"], fields) {
        return None;
    }
    let name = text_at(fields, "name")?;
    let vars = object_at(fields, "vars")?;
    Some(ProcessOutline { name, vars })
}

fn predicate_outline(value: &Value) -> Option<PredicateOutline<'_>>
    ensures { option_map predicate_outline_view result ≡ predicate_in (view value.now) }
{
    let fields = value.as_object()?;
    if !has_only(&["name", "text"], fields) {
        return None;
    }
    let name = text_at(fields, "name")?;
    let text = text_at(fields, "text")?;
    Some(PredicateOutline { name, text })
}

fn process_outlines(
    alloc: Global,
    items: &[Value],
) -> Result<Option<Vec<ProcessOutline<'_>>>, AllocError>
    ensures { IfOk result (λ found. option_map (λ processes. map process_view processes.items) found
        ≡ each process_in (items_view items.now)) }
{
    let mut processes = Vec::new(alloc);
    for item in items {
        match process_outline(item) {
            Some(process) => processes.push(process)?,
            None => return Ok(None),
        }
    }
    Ok(Some(processes))
}

fn predicate_outlines(
    alloc: Global,
    items: &[Value],
) -> Result<Option<Vec<PredicateOutline<'_>>>, AllocError>
    ensures { IfOk result (λ found. option_map (λ predicates. map predicate_outline_view predicates.items) found
        ≡ each predicate_in (items_view items.now)) }
{
    let mut predicates = Vec::new(alloc);
    for item in items {
        match predicate_outline(item) {
            Some(predicate) => predicates.push(predicate)?,
            None => return Ok(None),
        }
    }
    Ok(Some(predicates))
}

impl<'a> Outline<'a> {
    /// The outline of the document that the value is, if it has the shape of one.
    ///
    /// # Errors
    /// Out of memory.
    pub(crate) fn read(alloc: Global, value: &'a Value) -> Result<Option<Outline<'a>>, AllocError>
        ensures { IfOk result (λ found. option_map outline_view found ≡ outline_of (view value.now)) }
    {
        let Some(fields) = value.as_object() else {
            return Ok(None);
        };
        if !has_only(&["processes", "predicates", "width", "version"], fields) {
            return Ok(None);
        }
        let Some(processes) = array_at(fields, "processes") else {
            return Ok(None);
        };
        let Some(predicates) = array_at(fields, "predicates") else {
            return Ok(None);
        };
        let Some(processes) = process_outlines(alloc, processes)? else {
            return Ok(None);
        };
        let Some(predicates) = predicate_outlines(alloc, predicates)? else {
            return Ok(None);
        };
        Ok(Some(Outline {
            processes,
            predicates,
            width: value_at(fields, "width"),
            version: value_at(fields, "version"),
        }))
    }
}
