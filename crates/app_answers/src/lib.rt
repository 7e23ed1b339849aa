//! Explanations of the answers of a judged session: what can happen, where and why, and what may be green by accident.
//!
//! What is said of an answer is what the report says, and facts of the run that `judge_facts` states: the events at a
//! cut, where they were recorded, what they did, and what the variables were worth. Nothing is judged for that. Of what
//! the report leaves unknown beyond the width it is said what a judgement of the run's reduction decides, by
//! `judge_lifted`. Of the sentences themselves nothing is stated but that each call ends, and stays within its bounds.
//!
//! - `session`: a session that was judged, with what was read of it
//! - `places`: where an event was recorded, and what it did
//! - `possible`: what can happen, where and why
//! - `why_not`: why a predicate can't be true
//! - `answers`: what is said of each answer that is known
//! - `forms`: whether rules decide a predicate at any width
//! - `lifted`: what the reduction of the run decides of what the report leaves unknown
//! - `undecided`: what would decide an answer that is unknown
//! - `after_end`: how many lines stand after an end line
//! - `warnings`: what may be green by accident
#![tactic(auto)]

mod after_end;
mod answers;
mod forms;
mod lifted;
mod places;
mod possible;
mod session;
mod undecided;
mod warnings;
mod why_not;

pub use after_end::records_after;
pub use answers::explain_known;
pub use session::Session;
pub use warnings::warn;
