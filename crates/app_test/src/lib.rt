//! Tests recorded runs, each of them a folder with its session document, `session.json`, and a file `NAME.stream` for
//! the stream of each process NAME of the document; or a bundle in a file, if its name ends in `.bundle`.
//!
//! Of a run in a folder the document is read, each predicate that is wished for is looked up in it, the streams are
//! opened in its order, and the report is made. A bundle is opened, and then read and judged at once. A run that can't
//! be read or is refused isn't judged, and the test goes on with the others. Some runs are judged side by side: their
//! files are opened one after another, then each is judged in a thread of its own, and their lines are written in order
//! as soon as all of them are judged. A run isn't judged if one before those had its order and no unknown answer: it
//! has these answers. Memory holds the runs that are judged side by side, and the orders of those before.
//!
//! The JSON text has a report of each run that fails. What makes these reports adds them to the records; of each this
//! crate knows what the caller says of it.
//!
//! What a test leaves on its output stands in `specs/Tests.antt`. The three files of definitions beside it are for the
//! functions within: `ReadRuns` says why the streams of a run aren't open, `Jobs` what comes of runs whose files are
//! open, and `TestedRuns` what is written of the runs so far.
//!
//! - `run_files`: the names of a run's files
//! - `run_document`: reads the document of a run
//! - `unopened`: why the streams of a run aren't open
//! - `run_streams`: opens the streams of a run
//! - `job`: a run whose files are open, up to what comes of it
//! - `jobs`: runs whose files are open, judged side by side
//! - `run_bundle`: opens a run that is a bundle
//! - `run`: opens the files of a run
//! - `records`: what is known of the runs so far
//! - `tests`: tests runs, some at a time
//! - `ends`: how a test ended: the exit status, and what is reported
#![tactic(auto)]

mod ends;
mod job;
mod jobs;
mod records;
mod run;
mod run_bundle;
mod run_document;
mod run_files;
mod run_streams;
mod tests;
mod unopened;

pub use ends::report_test;
pub use records::{Records, Tested, wanted_by};
pub use run_document::read_run_document;
pub use run_files::{document_in, stream_in};
pub use run_streams::open_streams;
pub use tests::{conclude, test_some};
pub use unopened::Unopened;
