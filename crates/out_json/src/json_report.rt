//! A report's JSON text.
ghost use Rattle.out_json.specs.JsonReports.{json_at, json_of, json_text, json_text_at};
ghost use Rattle.pd_report.specs.Views.{report_view};
ghost use Rattle.serde_json.specs.View.{view};
ghost use Rattle.std.specs.Prelude.{◌≡◌, IfOk};

use super::answers::answer_values;
use super::places::{Nowhere, Places};
use super::refusals::refusal_value;
use super::texts::report_string;
use pd_pred::Names;
use pd_report::Report;
use serde_json::{Value, json};
use std::alloc::{AllocError, Global};

/// The version of this format.
const FORMAT: u64 = 1;

/// A report as a JSON value, with what is known of its cuts.
fn report_value_at<P: Places>(
    alloc: Global,
    names: &Names,
    places: &P,
    report: &Report,
) -> Result<Value, AllocError>
    ensures { IfOk result (λ value. view value
        ≡ json_at names.now (P.known places.now) (report_view report.now)) }
{
    let text = report_string(alloc, report)?;
    match report {
        Report::Judged {
            processes,
            events,
            messages,
            answers,
        } => {
            let answers = answer_values(alloc, names, places, answers)?;
            json!(in alloc; {
                "format": FORMAT,
                "outcome": "judged",
                "processes": *processes,
                "events": *events,
                "messages": *messages,
                "predicates": answers,
                "report": text
            })
        }
        Report::Refused(refusal) => {
            let refusal = refusal_value(alloc, refusal)?;
            json!(in alloc; {"format": FORMAT, "outcome": "refused", "refusal": refusal, "report": text})
        }
    }
}

/// A report as a JSON value. The names are those of the session's processes, to which the counts of cuts belong; of a
/// document that is refused there are none.
///
/// # Errors
/// Out of memory.
pub fn report_value(alloc: Global, names: &Names, report: &Report) -> Result<Value, AllocError>
    ensures { IfOk result (λ value. view value ≡ json_of names.now (report_view report.now)) }
{
    report_value_at(alloc, names, &Nowhere, report)
}

/// A report's JSON text: one object without spaces, in one line that is ended by an LF. The names are those of the
/// session's processes, to which the counts of cuts belong; of a document that is refused there are none.
///
/// # Errors
/// Out of memory.
pub fn json_text(alloc: Global, names: &Names, report: &Report) -> Result<Vec<u8>, AllocError>
    ensures { IfOk result (λ text. text.items ≡ json_text names.now (report_view report.now)) }
{
    json_text_at(alloc, names, &Nowhere, report)
}

/// The same text, with what is known of the report's cuts.
///
/// # Errors
/// Out of memory.
pub fn json_text_at<P: Places>(
    alloc: Global,
    names: &Names,
    places: &P,
    report: &Report,
) -> Result<Vec<u8>, AllocError>
    ensures { IfOk result (λ text. text.items
        ≡ json_text_at names.now (P.known places.now) (report_view report.now)) }
{
    let value = report_value_at(alloc, names, places, report)?;
    let mut text = value.to_vec(alloc)?;
    text.push(b'\n')?;
    Ok(text)
}
