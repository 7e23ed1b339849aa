//! What is read of a session before anything is walked: its document, its traces and its computation, or its refusal.
//!
//! Both the judgement of a session and the check of a report on it begin here. A session that is refused is refused in
//! the words of a report. Beside it stand the faults of the engine, a read up to a limit, and the text of what is shown
//! of the streams while they are read.
//!
//! - `inquiry`: a document's bytes, and what is asked beside them
//! - `document`: reads the document of a session
//! - `sessions`: the traces of a session
//! - `computations`: the computation of a session
//! - `snapshots`: writes what is shown of the streams while they are read
//! - `input`: reads a source up to a limit
//! - `refusal`: refusals in the words of a report
//! - `unanswered`: why a session comes to no answers
//! - `fault`: why the engine gives no report
#![tactic(auto)]

mod computations;
mod document;
mod fault;
mod input;
mod inquiry;
mod refusal;
mod sessions;
mod snapshots;
mod unanswered;

pub use computations::{build, computation_of, cycle_refusal, messages_of};
pub use document::{read_document, read_inquiry};
pub use fault::EngineFault;
pub use input::read_upto;
pub use inquiry::Inquiry;
pub use refusal::{of_document, stream_word};
pub use sessions::{traces_of, traces_within};
pub use snapshots::write_snapshot;
pub use unanswered::{Unanswered, settled};
