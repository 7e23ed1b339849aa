//! What the lines of a stream say so far.
ghost use Rattle.judge_infer.specs.Inferred.{after_event, after_join, after_line, after_shape, after_statement, after_value, fresh, set_names};
ghost use Rattle.judge_infer.specs.Streams.{with_receipt};
ghost use Rattle.judge_infer.specs.Statements.{kind_said, settings_view, statement_view};
ghost use Rattle.judge_infer.specs.Views.{IsDue, stage_view};
ghost use Rattle.def_format.specs.Records.{id_fits, json_value, statement_of, values, whole_number};
ghost use Rattle.serde_json.specs.View.{view};
ghost use Rattle.std.specs.List.{list_all};
ghost use Rattle.std.specs.Prelude.{◌≡◌, OnOk, is_some, map, option_map, string_bytes};

use super::AddFault;
use super::fault::{Wrong, line_fault};
use super::lines::is_blank;
use super::names::add_set_vars;
use super::statement::{Said, Statement, has_id_length, statement_of};
use def_format::{EVENT_LIMIT, LINE_BYTE_LIMIT};
use pd_pred::is_name;
use pd_spec::{are_whole, json_value};
use serde_json::{Map, Value};
use std::alloc::{AllocError, Global};

/// What the lines of a stream say so far.
#[derive(Drop)]
pub(crate) struct Stage {
    /// The process, if its join has come.
    pub(crate) process: Option<String>,
    /// The variables that are set, in the order in which each first is.
    pub(crate) vars: Vec<String>,
    /// The ids of the messages that are received.
    pub(crate) received: Vec<String>,
    /// How many events have come.
    pub(crate) events: usize,
    /// The number of a line that isn't JSON, counted from 1.
    pub(crate) cut: Option<u64>,
    /// Whether the end line has come.
    pub(crate) is_ended: bool,
}

/// Whether the id of this kind of event has 1 to 64 bytes, if there is one.
fn has_fitting_id(kind: Said<'_>) -> bool
    ensures { result ≡ id_fits (kind_said kind.entry) }
{
    match kind {
        Said::Local => true,
        Said::Send(id) | Said::Recv(id) => has_id_length(id),
    }
}

/// Whether each value that is set is a whole number of 64 bits.
fn sets_whole(settings: Option<&Map<String, Value>>) -> bool
    ensures { result ≡ list_all (λ value. is_some (whole_number value)) (values (settings_view settings.entry)) }
{
    match settings {
        Some(settings) => are_whole(settings),
        None => true,
    }
}

/// Adds the id of the message that an event receives, if it does.
fn add_receipt(alloc: Global, received: &mut Vec<String>, kind: Said<'_>) -> Result<(), AllocError>
    ensures { OnOk result (map string_bytes received.new.items
        ≡ with_receipt (kind_said kind.entry) (map string_bytes received.old.items)) }
{
    match kind {
        Said::Local => Ok(()),
        Said::Send(_) => Ok(()),
        Said::Recv(id) => {
            received.push(String::from_str(alloc, id)?)?;
            Ok(())
        }
    }
}

impl Stage {
    /// Before the first line.
    pub(crate) fn new(alloc: Global) -> Stage
        ensures { stage_view result ≡ fresh }
    {
        Stage {
            process: None,
            vars: Vec::new(alloc),
            received: Vec::new(alloc),
            events: 0,
            cut: None,
            is_ended: false,
        }
    }

    /// Takes an event of the line of this number.
    fn take_event(
        &mut self,
        alloc: Global,
        number: u64,
        line: &[u8],
        kind: Said<'_>,
        settings: Option<&Map<String, Value>>,
    ) -> Result<(), AddFault>
        ensures { IsDue (after_event (stage_view self.old) number (set_names line.now) (kind_said kind.entry)
            (settings_view settings.entry)) (stage_view self.new) result }
    {
        if self.events >= EVENT_LIMIT {
            return Err(line_fault(number, Wrong::Events));
        }
        if !sets_whole(settings) {
            return Err(line_fault(number, Wrong::Value));
        }
        if !has_fitting_id(kind) {
            return Err(line_fault(number, Wrong::MessageId));
        }
        add_set_vars(alloc, &mut self.vars, number, line)?;
        add_receipt(alloc, &mut self.received, kind)?;
        self.events += 1;
        Ok(())
    }

    /// Takes the name of the process.
    fn take_join(&mut self, alloc: Global, number: u64, name: &str) -> Result<(), AddFault>
        ensures { IsDue (after_join (stage_view self.old) number name.now) (stage_view self.new) result }
    {
        if self.process.is_some() {
            return Err(line_fault(number, Wrong::SecondJoin));
        }
        if !is_name(name.as_bytes()) {
            return Err(line_fault(number, Wrong::ProcessName));
        }
        self.process = Some(String::from_str(alloc, name)?);
        Ok(())
    }

    /// Takes what the line of this number says.
    fn take_statement(
        &mut self,
        alloc: Global,
        number: u64,
        line: &[u8],
        statement: Statement<'_>,
    ) -> Result<(), AddFault>
        ensures { IsDue (after_statement (stage_view self.old) number (set_names line.now)
            (statement_view statement.entry)) (stage_view self.new) result }
    {
        match statement {
            Statement::Join(name) => self.take_join(alloc, number, name),
            Statement::Finish => {
                if self.process.is_none() {
                    return Err(line_fault(number, Wrong::NoJoin));
                }
                self.is_ended = true;
                Ok(())
            }
            Statement::Event(kind, settings) => {
                if self.process.is_none() {
                    return Err(line_fault(number, Wrong::NoJoin));
                }
                self.take_event(alloc, number, line, kind, settings)
            }
        }
    }

    /// Takes the value that the line of this number is in JSON.
    fn take_value(
        &mut self,
        alloc: Global,
        number: u64,
        line: &[u8],
        value: &Value,
    ) -> Result<(), AddFault>
        ensures { IsDue (after_shape (stage_view self.old) number (set_names line.now) (statement_of (view value.now)))
            (stage_view self.new) result }
    {
        match statement_of(value) {
            Some(statement) => self.take_statement(alloc, number, line, statement),
            None => Err(line_fault(number, Wrong::Shape)),
        }
    }

    /// Takes the line of this number, which isn't blank, after none that isn't JSON.
    fn take_text(&mut self, alloc: Global, number: u64, line: &[u8]) -> Result<(), AddFault>
        ensures { IsDue (after_value (stage_view self.old) number line.now (json_value line.now)) (stage_view self.new)
            result }
    {
        match json_value(alloc, line)? {
            Some(value) => self.take_value(alloc, number, line, &value),
            None => {
                self.cut = Some(number);
                Ok(())
            }
        }
    }

    /// Takes the line of this number, counted from 1.
    ///
    /// # Errors
    /// The fault that stands then, or out of memory.
    #[tactic(auto, unfolding(crate::specs::Inferred::after_line))]
    pub(crate) fn take(&mut self, alloc: Global, number: u64, line: &[u8]) -> Result<(), AddFault>
        ensures { IsDue (after_line (stage_view self.old) number line.now) (stage_view self.new) result }
    {
        if self.is_ended {
            return Ok(());
        }
        if line.len() > LINE_BYTE_LIMIT {
            return Err(line_fault(number, Wrong::LineTooLong));
        }
        if is_blank(line) {
            return Ok(());
        }
        match self.cut {
            Some(cut) => Err(line_fault(cut, Wrong::Json)),
            None => self.take_text(alloc, number, line),
        }
    }
}
