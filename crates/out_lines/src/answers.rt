//! The line of what a session comes to, or of why it comes to nothing.
ghost use Rattle.out_json.specs.JsonReports.{json_of};
ghost use Rattle.out_lines.specs.Lines.{answer_data, error_data, line_text};
ghost use Rattle.pd_report.specs.Views.{report_view};
ghost use Rattle.serde_json.specs.View.{view};
ghost use Rattle.std.specs.Prelude.{◌≡◌, IfOk, option_map};

use super::line::line_of;
use out_json::report_value;
use pd_pred::Names;
use pd_report::Report;
use serde_json::{Value, json};
use std::alloc::{AllocError, Global};

/// What a session comes to, with the value of its report.
fn answer_value(
    alloc: Global,
    id: Option<&str>,
    names: &Names,
    report: &Report,
    status: u8,
) -> Result<Value, AllocError>
    ensures { IfOk result (λ value. view value
        ≡ answer_data (option_map (λ id. id.now) id.entry) names.now (report_view report.now) status) }
{
    let report = report_value(alloc, names, report)?;
    match id {
        Some(id) => json!(in alloc; {"id": id, "report": report, "status": status as u64}),
        None => json!(in alloc; {"report": report, "status": status as u64}),
    }
}

/// The line of what a session comes to: its name, if it has one, its report, and the status that `judge` would end
/// with. The names are those of the session's processes; of a document that is refused there are none.
///
/// # Errors
/// Out of memory.
pub fn answer_line(
    alloc: Global,
    id: Option<&str>,
    names: &Names,
    report: &Report,
    status: u8,
) -> Result<Vec<u8>, AllocError>
    ensures { IfOk result (λ line. line.items
        ≡ line_text (answer_data (option_map (λ id. id.now) id.entry) names.now (report_view report.now) status)) }
{
    let value = answer_value(alloc, id, names, report, status)?;
    line_of(alloc, &value)
}

/// Why the session of a line comes to nothing.
fn error_value(
    alloc: Global,
    id: Option<&str>,
    error: &str,
    number: u64,
) -> Result<Value, AllocError>
    ensures { IfOk result (λ value. view value
        ≡ error_data (option_map (λ id. id.now) id.entry) error.now number) }
{
    match id {
        Some(id) => json!(in alloc; {"error": error, "id": id, "line": number}),
        None => json!(in alloc; {"error": error, "line": number}),
    }
}

/// The line that says why the session in the line of this number, counted from 1, comes to nothing. It may have a name.
///
/// # Errors
/// Out of memory.
pub fn error_line(
    alloc: Global,
    id: Option<&str>,
    error: &str,
    number: u64,
) -> Result<Vec<u8>, AllocError>
    ensures { IfOk result (λ line. line.items
        ≡ line_text (error_data (option_map (λ id. id.now) id.entry) error.now number)) }
{
    let value = error_value(alloc, id, error, number)?;
    line_of(alloc, &value)
}
