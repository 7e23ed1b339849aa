//! The report of a session: as a value, as text, written, and read.
//!
//! A report's text is exactly the one that the definitions give; it reaches a writer whole, or the call fails. Bytes
//! are read as a report exactly if they are its text, and otherwise the first line is reported with which they stop
//! being one.
//!
//! - `report`: what is reported about a session
//! - `answer`: the answer for one predicate
//! - `possibly`: whether some consistent cut satisfies it
//! - `definitely`: whether each observation has a cut that satisfies it
//! - `path`: the names of the processes of an observation's events, each kept once
//! - `refusal`: why a session is refused
//! - `fields`: the fields of a line of text
//! - `answer_text`: the lines of answers
//! - `refusal_text`: the words of a refusal
//! - `report_text`: a report's text
//! - `same`: compares refusals
//! - `output`: writes a text, and a report
//! - `fault`: why a report is not written
//! - `fault_words`: the words for faults that the reader accepts
//! - `words`: words, and what stands between others
//! - `remaining`: the words that remain of bytes, taken one after another
//! - `listed`: words with a comma between each two
//! - `session_line`: reads the line that counts what a session has
//! - `answer_line`: reads the lines of an answer
//! - `refusal_line`: reads the line of a refusal
//! - `reader`: reads a report
//! - `read_fault`: why bytes are not read as a report
#![tactic(auto)]

mod answer;
mod answer_line;
mod answer_text;
mod definitely;
mod fault;
mod fault_words;
mod fields;
mod listed;
mod output;
mod path;
mod possibly;
mod read_fault;
mod reader;
mod refusal;
mod refusal_line;
mod refusal_text;
mod remaining;
mod report;
mod report_text;
mod same;
mod session_line;
mod words;

pub use answer::Answer;
pub use definitely::Definitely;
pub use fault::WriteFault;
pub use fields::{push_bytes, push_number};
pub use output::{try_write_all, write, write_all, write_all_counted};
pub use path::Path;
pub use possibly::Possibly;
pub use read_fault::ReportFault;
pub use reader::read;
pub use refusal::Refusal;
pub use report::Report;
pub use report_text::text;
pub use same::same_refusal;
