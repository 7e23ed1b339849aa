//! The results of recorded runs for other programs: as one JSON object, and as a file of JUnit, as servers of CI show
//! them.
//!
//! Runs are added one by one, with what comes of each, and reports of some of them, each as the text that it was
//! written as; the numbers of all runs come at the end. Both texts are exactly those that `specs/Results.antt` defines
//! over the runs.
//!
//! - `case`: the test case of a run, as XML
//! - `broken`: the answers that aren't as wished, as JSON values
//! - `run_value`: a run as a JSON value
//! - `reports`: the reports of runs, as parts of a text
//! - `texts`: both texts, by what they are made of
//! - `results`: the results of runs, as they are added
#![tactic(auto)]

mod broken;
mod case;
mod reports;
mod results;
mod run_value;
mod texts;

pub use results::{Results, Texts, Wanted};
