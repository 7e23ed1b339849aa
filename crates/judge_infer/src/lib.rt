//! What recorded streams say of a session before it has a document, and the first document that they make together.
//!
//! Of a stream is read which process it is of, which variables its events set, in the order in which each is first set,
//! and which messages it receives; or the first line that is refused. `Session::document` is then the text of a session
//! document: each process in the order of the streams, its variables with the initial value 0, version 2 if a message
//! is received more than once in all, and the predicate `false` under the name `replace_this`.
//!
//! What the bytes of a stream say stands in `specs/Streams.antt`, and the text of the document in
//! `specs/FirstDocuments.antt`. The clauses have the same line by line (`specs/Inferred.antt`) and part by part
//! (`specs/DocumentParts.antt`); `proofs/StreamSteps.antt` and `proofs/DocumentSteps.antt` prove that it is the same.
//!
//! - `fault`: why a stream is refused, and why streams have no document
//! - `fields`: the field of a JSON object that has one alone
//! - `statement`: what a line of right shape says
//! - `names`: the variables that a line sets, in the order of its text
//! - `stage`: what the lines of a stream say so far
//! - `lines`: the first line of some bytes
//! - `process`: what a stream says of its process
//! - `twice`: texts that stand twice in a list
//! - `text`: the text of the first document
//! - `infer`: the streams that were read, and their document
#![tactic(auto)]

mod fault;
mod fields;
mod infer;
mod lines;
mod names;
mod process;
mod stage;
mod statement;
mod text;
mod twice;

pub use fault::{AddFault, DocumentFault, StreamFault, Wrong};
pub use infer::Session;
