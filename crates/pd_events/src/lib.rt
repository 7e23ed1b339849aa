//! Records and traces from the lines of a stream.
//!
//! `read_record` says exactly what a line says, or the first fault that applies. A trace reader takes a stream's bytes
//! in pieces; however they are cut, its state, its events and its outcome are those of the reading of all bytes that
//! came before it closed. If memory runs out it stays as it was.
//!
//! - `line_record`: what a line says
//! - `fault`: what is wrong with a line or a stream, and how far a stream is
//! - `fields`: the fields of a JSON object that a line has
//! - `statement`: what a line of right shape says
//! - `plain`: what a line of the plain shape says, token by token
//! - `room`: what is kept from line to line
//! - `record`: the record of a line
//! - `progress`: how far the lines have been read
//! - `reader`: the reader of a stream
#![tactic(auto)]

mod fault;
mod fields;
mod line_record;
mod plain;
mod progress;
mod reader;
mod record;
mod room;
mod statement;

pub use fault::{RecordFault, StreamFault, StreamKind, StreamState};
pub use line_record::LineRecord;
pub use progress::{Join, Phase, Progress};
pub use reader::TraceReader;
pub use record::read_record;
