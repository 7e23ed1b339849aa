//! A run as a JSON value.
ghost use Rattle.judge_results.specs.Results.{judged_data, refused_data, run_data, unnamed_data, unread_data};
ghost use Rattle.judge_runs.specs.Runs.{Reported};
ghost use Rattle.judge_runs.specs.Views.{outcome_view, wishes_view};
ghost use Rattle.pd_report.specs.Views.{report_view};
ghost use Rattle.serde_json.specs.View.{view};
ghost use Rattle.std.specs.Prelude.{◌≡◌, IfOk, map};

use super::broken::broken_values;
use judge_runs::{Outcome, Wish};
use out_json::report_value;
use pd_pred::Names;
use pd_report::Report;
use serde_json::{Value, json};
use std::alloc::{AllocError, Global};

/// The run of this name that is judged, by the answers that aren't as wished.
fn judged_value(alloc: Global, name: &str, broken: Vec<Value>) -> Result<Value, AllocError>
    ensures { IfOk result (λ value. view value ≡ judged_data name.now (map view broken.items)) }
{
    if broken.is_empty() {
        return json!(in alloc; {"name": name, "outcome": "pass"});
    }
    json!(in alloc; {"broken": broken, "name": name, "outcome": "fail"})
}

/// The run of this name that is refused, with its report.
fn refused_value(alloc: Global, name: &str, report: &Report) -> Result<Value, AllocError>
    ensures { IfOk result (λ value. view value ≡ refused_data name.now (report_view report.now)) }
{
    let none = Names::new(Vec::new(alloc));
    let report = report_value(alloc, &none, report)?;
    json!(in alloc; {"name": name, "outcome": "not judged", "report": report})
}

/// The run of this name of which a file can't be read.
fn unread_value(alloc: Global, name: &str, file: &str) -> Result<Value, AllocError>
    ensures { IfOk result (λ value. view value ≡ unread_data name.now file.now) }
{
    json!(in alloc; {"file": file, "name": name, "outcome": "not judged"})
}

/// The run of this name whose document lacks a predicate that is wished for.
fn unnamed_value(alloc: Global, name: &str, predicate: &str) -> Result<Value, AllocError>
    ensures { IfOk result (λ value. view value ≡ unnamed_data name.now predicate.now) }
{
    json!(in alloc; {"name": name, "outcome": "not judged", "unnamed": predicate})
}

/// The run of this name, by its report.
fn reported_value(
    alloc: Global,
    wishes: &[Wish<'_>],
    name: &str,
    report: &Report,
) -> Result<Value, AllocError>
    ensures { IfOk result (λ value. view value ≡ run_data (wishes_view wishes.now)
        (record { folder = name.now; outcome = Reported (report_view report.now) })) }
{
    match report {
        Report::Judged { answers, .. } => {
            let broken = broken_values(alloc, wishes, answers)?;
            judged_value(alloc, name, broken)
        }
        Report::Refused(_) => refused_value(alloc, name, report),
    }
}

/// The run in this folder, of which this comes.
///
/// # Errors
/// Out of memory.
pub(crate) fn run_value(
    alloc: Global,
    wishes: &[Wish<'_>],
    folder: &str,
    outcome: &Outcome,
) -> Result<Value, AllocError>
    ensures { IfOk result (λ value. view value ≡ run_data (wishes_view wishes.now)
        (record { folder = folder.now; outcome = outcome_view outcome.now })) }
{
    match outcome {
        Outcome::Unread(file) => unread_value(alloc, folder, file),
        Outcome::Unnamed(name) => unnamed_value(alloc, folder, name),
        Outcome::Reported(report) => reported_value(alloc, wishes, folder, report),
    }
}
