//! A report's text, as a string. It is UTF-8, since its words are ASCII and its names are strings.
ghost use Rattle.def_format.specs.Reports.{report_text};
ghost use Rattle.out_json.specs.Utf8Names.{PathIsUtf8, PathsAreUtf8};
ghost use Rattle.pd_report.specs.Views.{answer_view, definitely_view, report_view};
ghost use Rattle.std.specs.List.{AllByRecursion};
ghost use Rattle.std.specs.Prelude.{◌≡◌, map, string_bytes, IfOk};
ghost use Rattle.std.specs.Str.{IsUtf8};

use pd_report::{Answer, Definitely, Path, Report, text};
use std::alloc::{AllocError, Global};

/// The names of an observation's events are UTF-8. It computes nothing: a caller's proof has the fact by calling it.
fn path_is_utf8(path: &Path)
    ensures { AllByRecursion IsUtf8 path.now }
{
    let _parts = path.parts();
}

/// The names of an answer's observation, if it has one, are UTF-8.
fn definitely_is_utf8(definitely: &Definitely)
    ensures { PathIsUtf8 (definitely_view definitely.now) }
{
    if let Definitely::No(path) = definitely {
        path_is_utf8(path);
    }
}

/// The names of all answers' observations are UTF-8.
fn answers_are_utf8(answers: &[Answer])
    ensures { PathsAreUtf8 (map answer_view answers.now) }
{
    for answer in answers {
        definitely_is_utf8(&answer.definitely);
    }
}

/// A report's text is UTF-8.
fn report_is_utf8(report: &Report)
    ensures { IsUtf8 (report_text (report_view report.now)) }
{
    match report {
        Report::Judged { answers, .. } => answers_are_utf8(answers),
        Report::Refused(_) => (),
    }
}

/// A report's text, as a string.
pub(crate) fn report_string(alloc: Global, report: &Report) -> Result<String, AllocError>
    ensures { IfOk result (λ string. string_bytes string ≡ report_text (report_view report.now)) }
{
    report_is_utf8(report);
    let bytes = text(alloc, report)?;
    Ok(String::from_utf8(bytes).unwrap())
}
