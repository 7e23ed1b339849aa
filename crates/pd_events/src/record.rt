//! The record of a line.
ghost use Rattle.std.specs.Prelude.{◌≡◌, map, string_bytes, option_and_then, IfOk};
ghost use Rattle.serde_json.specs.Find.{get_member};
ghost use Rattle.serde_json.specs.View.{members_view};
ghost use Rattle.def_format.specs.Names.{vars_of};
ghost use Rattle.def_format.specs.Records.{event_record, record_of, record_of_statement, sets_from, whole_number};
ghost use Rattle.pd_spec.specs.Views.{document_view};
ghost use Rattle.pd_events.specs.Parts.{IsId, IsKind, IsSets};
ghost use Rattle.pd_events.specs.Statements.{kind_said, settings_view, statement_view};
ghost use Rattle.pd_events.specs.Views.{IsRecord};

use super::fields::has_only_vars;
use super::statement::{Said, Statement, has_id_length, statement_of};
use super::{LineRecord, RecordFault};
use pd_pred::Names;
use pd_spec::{Spec, are_whole, json_value, value_at};
use read_traces::{Event, EventKind};
use serde_json::{Map, Value};
use std::alloc::{AllocError, Global};

/// The variables of this process; none if there is no such process.
pub(crate) fn vars_of(names: &Names, process: usize) -> &[String]
    ensures { map string_bytes result.now ≡ vars_of names.now process }
{
    if process < names.processes() {
        names.vars(process)
    } else {
        &[]
    }
}

/// The whole number that stands at this field, if one does.
fn whole_at(fields: &Map<String, Value>, name: &str) -> Option<i64>
    ensures { result ≡ option_and_then whole_number (get_member name.now (members_view fields.now.entries)) }
{
    value_at(fields, name)?.as_i64()
}

/// The variables that are set to a whole number, with it, in the variables' order.
fn sets_of(
    alloc: Global,
    vars: &[String],
    settings: &Map<String, Value>,
) -> Result<Vec<(usize, i64)>, AllocError>
    ensures { IfOk result (λ sets. sets.items
        ≡ sets_from 0 (map string_bytes vars.now) (members_view settings.now.entries)) }
{
    let mut sets = Vec::with_capacity(alloc, settings.len())?;
    for (number, var) in vars.iter().enumerate() {
        if let Some(value) = whole_at(settings, var.as_str()) {
            sets.push((number, value))?;
        }
    }
    Ok(sets)
}

/// The variables that settings set, if a process has these variables.
fn sets_of_settings(
    alloc: Global,
    vars: &[String],
    settings: &Map<String, Value>,
) -> Result<Vec<(usize, i64)>, RecordFault>
    ensures { IsSets (map string_bytes vars.now) (members_view settings.now.entries) result }
{
    if !has_only_vars(vars, settings) {
        return Err(RecordFault::UnknownVar);
    }
    if !are_whole(settings) {
        return Err(RecordFault::Value);
    }
    Ok(sets_of(alloc, vars, settings)?)
}

/// The variables that an event sets of a process that has these.
fn sets_of_event(
    alloc: Global,
    vars: &[String],
    settings: Option<&Map<String, Value>>,
) -> Result<Vec<(usize, i64)>, RecordFault>
    ensures { IsSets (map string_bytes vars.now) (settings_view settings.entry) result }
{
    match settings {
        None => Ok(Vec::new(alloc)),
        Some(settings) => sets_of_settings(alloc, vars, settings),
    }
}

/// The id of a message, which has 1 to 64 bytes.
fn id_of(alloc: Global, id: &str) -> Result<String, RecordFault>
    ensures { IsId id.now result }
{
    if !has_id_length(id) {
        return Err(RecordFault::MessageId);
    }
    Ok(String::from_str(alloc, id)?)
}

/// The kind of event, with its id.
fn kind_of(alloc: Global, said: Said<'_>) -> Result<EventKind, RecordFault>
    ensures { IsKind (kind_said said.entry) result }
{
    match said {
        Said::Local => Ok(EventKind::Local),
        Said::Send(id) => Ok(EventKind::Send(id_of(alloc, id)?)),
        Said::Recv(id) => Ok(EventKind::Recv(id_of(alloc, id)?)),
    }
}

/// The event of a process that has these variables.
fn event_of(
    alloc: Global,
    vars: &[String],
    said: Said<'_>,
    settings: Option<&Map<String, Value>>,
) -> Result<LineRecord, RecordFault>
    ensures { IsRecord (event_record (map string_bytes vars.now) (kind_said said.entry) (settings_view settings.entry))
        result }
{
    let sets = sets_of_event(alloc, vars, settings)?;
    let kind = kind_of(alloc, said)?;
    Ok(LineRecord::Happened(Event { kind, sets }))
}

/// The record of a statement, before the join or after it.
fn record_of(
    alloc: Global,
    names: &Names,
    joined: Option<usize>,
    statement: Statement<'_>,
) -> Result<LineRecord, RecordFault>
    ensures { IsRecord (record_of_statement names.now joined (statement_view statement.entry)) result }
{
    match (joined, statement) {
        (None, Statement::Join(name)) => match names.find(name) {
            Some(process) => Ok(LineRecord::Join(process)),
            None => Err(RecordFault::UnknownProcess),
        },
        (None, Statement::Finish | Statement::Event(_, _)) => Err(RecordFault::Join),
        (Some(_), Statement::Join(_)) => Err(RecordFault::Join),
        (Some(_), Statement::Finish) => Ok(LineRecord::Finish),
        (Some(process), Statement::Event(said, settings)) => {
            event_of(alloc, vars_of(names, process), said, settings)
        }
    }
}

/// The record of a line, before the join or after the join of a process, which is counted from 0.
///
/// # Errors
/// The first fault that applies, or out of memory.
pub fn read_record(
    alloc: Global,
    spec: &Spec,
    joined: Option<usize>,
    bytes: &[u8],
) -> Result<LineRecord, RecordFault>
    ensures { IsRecord (record_of (document_view spec.now).names joined bytes.now) result }
{
    let Some(value) = json_value(alloc, bytes)? else {
        return Err(RecordFault::Json);
    };
    match statement_of(&value) {
        Some(statement) => record_of(alloc, spec.names(), joined, statement),
        None => Err(RecordFault::Shape),
    }
}
