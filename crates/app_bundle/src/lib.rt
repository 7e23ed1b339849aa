//! Writes recorded runs, each of them a folder, as sessions in lines, which `batch` reads.
//!
//! A run that can't be read has a line too, which says so, and stops none of the others. What is written stands in
//! `specs/Bundles.antt`.
//!
//! - `run_line`: what comes of a run
//! - `unbundled`: why a run has no session
//! - `streams`: the texts of the streams of a run
//! - `run`: the line of a run
//! - `bundle`: writes the lines of runs, one after another
//! - `ends`: an explanation of how that ended
#![tactic(auto)]

mod bundle;
mod ends;
mod run;
mod run_line;
mod streams;
mod unbundled;

pub use bundle::bundle_runs;
pub use ends::bundle_runs_text;
