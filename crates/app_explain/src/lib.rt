//! Explanations for a person: what a refusal, an unknown answer or a fault means, where it stands, what was expected
//! there, and what to do.
//!
//! An explanation is text for the errors beside a report or a fault's line, and changes neither. Each function here
//! puts lines to the end of a text. It is given what a report says, and the bytes that were read, as far as they are
//! known: nothing is taken for granted of them, and a place is shown only where it is sure. What the words of refusals
//! mean exactly stands in the definitions of `def_format`.
//!
//! Stated is what is computed: which name and id a record gives, which processes are missing, and when something is
//! unknown; and in `app_text` how lines and places are found and shown. Of the sentences themselves nothing is stated
//! but that each call ends, and stays within its bounds.
//!
//! - `refusals`: why a session is refused, by what was read of it
//! - `seen`: what was read of a session
//! - `documents`, `document_details`: why a session document is refused
//! - `predicates`, `expected_tokens`, `known_names`: why the text of a predicate is refused
//! - `predicate_hints`: what may have been meant there
//! - `nearest`, `near_names`: which name is near to one that there isn't
//! - `file_kinds`: what a file is that holds no JSON
//! - `streams`, `record_details`: why a stream is refused
//! - `fields`: the texts of fields of lines
//! - `peers`: who sends the streams of a server, and who is missing
//! - `served_places`: where a server waits for streams and watchers
//! - `messages`: why messages, a causal cycle, or a list of streams are refused
//! - `noted`: what was noted of events
//! - `words`: the words of refusals
//! - `answers`: what an answer leaves unknown
//! - `findings`: what is bad in what a check finds
//! - `faults`: why there is no report
//! - `json_faults`: where bytes stop being a JSON text
#![tactic(auto)]

mod answers;
mod document_details;
mod documents;
mod expected_tokens;
mod faults;
mod fields;
mod file_kinds;
mod findings;
mod json_faults;
mod known_names;
mod messages;
mod near_names;
mod nearest;
mod noted;
mod peers;
mod predicate_hints;
mod predicates;
mod record_details;
mod refusals;
mod seen;
mod served_places;
mod streams;
mod words;

pub use answers::{Judged, Widest, explain_answers};
pub use faults::{
    explain_bundle_fault, explain_file, explain_long_report, explain_memory, explain_no_file,
    explain_no_predicate, explain_output,
};
pub use findings::{explain_finding, explain_no_picture, explain_unread_finding};
pub use noted::{NotedEvents, explain_wrong_notes};
pub use peers::{
    Sender, explain_sent_stream, explain_unkept, explain_wait, tell_connection, tell_refusal,
    tell_start, tell_stop,
};
pub use refusals::explain_refusal;
pub use seen::{Seen, SeenStream};
pub use served_places::{
    ServedPlace, explain_connection, explain_unbound, explain_unfiled, tell_places, warn_of_open,
};
pub use streams::{StreamFault, joined_name};
pub use words::StreamWord;
