//! What a line of right shape says.
ghost use Rattle.std.specs.Prelude.{◌≡◌, ◌&&◌, length, nat_le, option_map};
ghost use Rattle.serde_json.specs.View.{view, members_view};
ghost use Rattle.def_format.specs.Limits.{id_byte_limit};
ghost use Rattle.def_format.specs.Lists.{first_some};
ghost use Rattle.def_format.specs.Records.{end_statement, event_statement, join_statement, kind_by_fields, settings_of, statement_of};
ghost use Rattle.judge_infer.specs.Statements.{kind_said, settings_view, statement_view};

use super::fields::only_field;
use pd_spec::{has_only, value_at};
use serde_json::{Map, Value};

/// The kind of event that a line says.
#[derive(Clone, Copy)]
pub enum Said<'a> {
    /// An event of its process alone.
    Local,
    /// It sends the message with this id.
    Send(&'a str),
    /// It receives the message with this id.
    Recv(&'a str),
}

/// Whether a message's id has 1 to 64 bytes.
pub fn has_id_length(id: &str) -> bool
    ensures { result ≡ (nat_le 1 (length id.now) && nat_le (length id.now) id_byte_limit) }
{
    !id.is_empty() && id.len() <= def_format::ID_BYTE_LIMIT
}

/// What a line says, before its names and values are looked at.
#[derive(Clone, Copy)]
pub enum Statement<'a> {
    /// The stream is that of the process of this name.
    Join(&'a str),
    /// The process has no more events.
    Finish,
    /// An event of this kind, with the variables that it sets, if it says any.
    Event(Said<'a>, Option<&'a Map<String, Value>>),
}

/// The join or the end that the fields say, if there is one alone.
fn only_statement(fields: &Map<String, Value>) -> Option<Statement<'_>>
    ensures { option_map statement_view result
        ≡ first_some (join_statement (members_view fields.now.entries))
        (end_statement (members_view fields.now.entries)) }
{
    let (name, value) = only_field(fields)?;
    if name == "process" {
        return Some(Statement::Join(value.as_str()?));
    }
    if name == "end" && value.as_bool() == Some(true) {
        return Some(Statement::Finish);
    }
    None
}

/// The kind of event, by the ids of what it sends and of what it receives. It doesn't do both.
fn kind_in<'a>(sent: Option<&'a Value>, received: Option<&'a Value>) -> Option<Said<'a>>
    ensures { option_map kind_said result
        ≡ kind_by_fields (option_map (λ value. view value.now) sent.entry)
        (option_map (λ value. view value.now) received.entry) }
{
    match (sent, received) {
        (None, None) => Some(Said::Local),
        (Some(id), None) => Some(Said::Send(id.as_str()?)),
        (None, Some(id)) => Some(Said::Recv(id.as_str()?)),
        (Some(_), Some(_)) => None,
    }
}

/// The variables that are set, if any are said. What says them is an object.
fn settings(value: Option<&Value>) -> Option<Option<&Map<String, Value>>>
    ensures { option_map settings_view result ≡ settings_of (option_map (λ value. view value.now) value.entry) }
{
    match value {
        Some(value) => Some(Some(value.as_object()?)),
        None => Some(None),
    }
}

/// The event that the fields say.
fn event_of(fields: &Map<String, Value>) -> Option<Statement<'_>>
    ensures { option_map statement_view result ≡ event_statement (members_view fields.now.entries) }
{
    if !has_only(&["send", "recv", "set"], fields) {
        return None;
    }
    let kind = kind_in(value_at(fields, "send"), value_at(fields, "recv"))?;
    let settings = settings(value_at(fields, "set"))?;
    Some(Statement::Event(kind, settings))
}

/// What the value says, if it has the shape of a record.
pub fn statement_of(value: &Value) -> Option<Statement<'_>>
    ensures { option_map statement_view result ≡ statement_of (view value.now) }
{
    let fields = value.as_object()?;
    match only_statement(fields) {
        Some(statement) => Some(statement),
        None => event_of(fields),
    }
}
