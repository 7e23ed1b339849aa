//! Explains how a run ended, by what it has read: no file of a session is opened again.
//!
//! Explanations are for a person. Stated is what they are made of: the parts of a bundle with the lines before them,
//! what files and parts are called, and that a text is shown in rows. Which sentence is chosen at which end is not; the
//! sentences stand in `app_explain` and `app_answers`.
//!
//! - `seen_files`: what a run has read of files
//! - `seen_parts`: what a run has read of a bundle
//! - `seen_notes`: reads notes on events
//! - `explained_answers`: explains the answers of a session
//! - `explained_ends`: explains how a run ended
//! - `reasons`: says why a run ends with status 5
//! - `unknown_names`: says which predicate that is named isn't there
#![tactic(auto)]

mod explained_answers;
mod explained_ends;
mod reasons;
mod seen_files;
mod seen_notes;
mod seen_parts;
mod unknown_names;

pub use explained_ends::{
    bundle_text, check_text, drawing_text, exploration_text, judgement_text, put_fault, put_report,
    refusal_text, run_refusal_text,
};
pub use reasons::put_reasons;
pub use seen_files::seen_document;
pub use seen_notes::{DrawnNotes, notes_to_draw};
pub use unknown_names::put_unknown_condition;
