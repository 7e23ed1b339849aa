//! The session document: a JSON object with the fields `processes`, `predicates` and, if they are there, `width` and
//! `version`. A process has a `name`, and in `vars` its variables with their initial values; a predicate has a `name`
//! and a `text`. The version is 1 or 2, and 1 where there is no such field.
//!
//! `Spec::read` answers `Ok` exactly with the document that the bytes are, and otherwise with the first fault that
//! applies. Only out of memory is reported without a claim about the bytes. A `Spec` keeps the bounds of its parts as a
//! ghost field, on which callers rely.
//!
//! A session's document has at most 16 processes. `Spec::read_within` takes another number, for runs of any length: a
//! `Spec` says nothing of how many there are.
//!
//! `Options` say what is asked beside the document: another width, other predicates, and answers beyond the width.
//! `Spec::read_with_options` puts them into the JSON value that was read, and `document_text` gives the text of the
//! changed document, for a server that keeps its session as files.
//!
//! - `spec`: the document, and its reader
//! - `options`: what is asked beside the document
//! - `changes`: a document's JSON value with what is asked
//! - `texts`: the text of a document with what is asked
//! - `version`: the version of a document, and its reader
//! - `named`: a predicate with its name
//! - `fault`: why bytes are no document
//! - `json_bytes`: the JSON value of bytes, for readers of other formats too
//! - `fields`: the fields of a JSON object, for readers of other formats too
//! - `outline`: the parts of a document, borrowed from the JSON value
//! - `checks`: the faults of an outline, in their order
//! - `twice`: whether a text stands twice in a list
//! - `parts`: the names and the initial values, made from an outline
//! - `predicates`: the predicates, parsed one after another
#![tactic(auto)]

mod changes;
mod checks;
mod fault;
mod fields;
mod json_bytes;
mod named;
mod options;
mod outline;
mod parts;
mod predicates;
mod spec;
mod texts;
mod twice;
mod version;

pub use def_format::Version;
pub use fault::SpecFault;
pub use fields::{are_whole, has_only, value_at};
pub use json_bytes::json_value;
pub use named::NamedPred;
pub use options::Options;
pub use spec::Spec;
pub use texts::document_text;
