//! The report of a session as one JSON object, for programs that read JSON.
//!
//! The object is the one that the definitions give, without spaces, in one line that is ended by an LF. Its field
//! `report` has the report's own text, so no program has to put that together again. Of lawful reports, the two texts
//! determine each other.
//!
//! - `json_report`: a report as a JSON value, and its text
//! - `answers`: the answers, as JSON values
//! - `places`: what is known of a cut, as JSON values
//! - `runs`: an observation's events, by how many of one process follow one another
//! - `refusals`: why a session is refused, as a JSON value
//! - `texts`: what is UTF-8 in a report
#![tactic(auto)]

mod answers;
mod json_report;
mod places;
mod refusals;
mod runs;
mod texts;

ghost use Rattle.out_json.specs.ReportLaws.{
  HasReportText,
  JsonDeterminesText,
  RunsAreLongest,
  RunsAreThePath,
  TextDeterminesJson,
};

pub use json_report::{json_text, json_text_at, report_value};
pub use places::{Nowhere, Places, ProcessAt};

/// The field `report` of a report's JSON object has the report's text, and of lawful reports the JSON text and the
/// report's text determine each other.
pub fn texts_determine_each_other()
    ensures field { HasReportText }
    ensures json { JsonDeterminesText }
    ensures text { TextDeterminesJson }
{}

/// The runs of an observation's events give back the events, none is empty, and each is as long as it can be.
pub fn runs_are_the_path()
    ensures events { RunsAreThePath }
    ensures longest { RunsAreLongest }
{}
