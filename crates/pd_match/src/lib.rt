//! The messages of a session: which send each receipt has.
//!
//! Traces are matched by the ids of their sends and receipts. If every id is sent once, and received by other processes
//! alone, by one of them at most once, or in version 2 of the document by several of them at most once each, the
//! messages are the pairs of a send and its receipt. Otherwise the first fault is reported, in the order of places.
//!
//! Two passes go over the events, in the order of places. The first notes where each id is sent, and stops where one is
//! sent again. The second looks up the send of each receipt, and stops at the first receipt at fault. An id is looked
//! up in a hash map, so the time is linear in the number of events.
//!
//! - `place`: where an event stands
//! - `fault`: why the events can't be matched
//! - `hashing`: a keyed hash of ids
//! - `id`: ids of messages, as the keys of a map
//! - `sender`: the send of an event, as the table of senders keeps it
//! - `matched`: the messages
//! - `kinds`: the kinds of events, by process and index
//! - `noting`: notes at which places ids stand
//! - `sending`: the first pass, over the sends
//! - `receiving`: the second pass, over the receipts
//! - `matching`: matches sends and receipts
#![tactic(auto)]

mod fault;
mod hashing;
mod id;
mod kinds;
mod matched;
mod matching;
mod noting;
mod place;
mod receiving;
mod sender;
mod sending;

pub use fault::MatchFault;
pub use matched::Matched;
pub use matching::match_messages;
pub use place::Place;
