//! An ordinary session that has the answers of a run, by the order of the run alone: its document, and a stream for
//! each process, as text. It has the processes of which predicates name variables, and no others. What is made is read
//! back and compared before it is given, so that it needs no law how it is made.
//!
//! - `reduced`: the session of an order
//! - `documents`: the text of its document
//! - `rows`: what the order says of a kept event
//! - `receipts`: the messages that each kept event receives
//! - `received`: the kept events whose message is received
//! - `lines`: the lines of its streams
//! - `streams`: the texts of its streams
//! - `readings`: what streams that were made come to
//! - `counts`: how many events and messages a session of an order has
//! - `checks`: whether texts are a session of an order
//! - `same_documents`: whether a document has some processes of another one, and its predicates
//! - `same_names`: whether it has these processes, with their variables
//! - `same_values`: whether it has their initial values
//! - `same_predicates`: whether it has the predicates
//! - `same_trees`: whether a predicate is another one under the numbers that some processes have
#![tactic(auto)]

mod checks;
mod counts;
mod documents;
mod lines;
mod readings;
mod receipts;
mod received;
mod reduced;
mod rows;
mod same_documents;
mod same_names;
mod same_predicates;
mod same_trees;
mod same_values;
mod streams;

pub use reduced::{ReducedSession, reduced_session};
