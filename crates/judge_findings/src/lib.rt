//! What a check finds as one JSON object, for programs that read JSON.
//!
//! The object is the one that the definitions give, without spaces, in one line that is ended by an LF.
//!
//! - `verdicts`: the verdicts on answers, as JSON values
//! - `json_finding`: what a check finds, as a JSON text
#![tactic(auto)]

mod json_finding;
mod verdicts;

pub use json_finding::finding_json;
