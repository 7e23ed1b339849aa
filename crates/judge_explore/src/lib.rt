//! Explores a session: its document and streams in, the page out on which its run is explored, or its report as one
//! JSON object, with where the cuts of its answers stand.
//!
//! A session is read and judged as `pd_engine` judges it, and its page is made (`out_page`), with the answers of its
//! report. Of a session that is refused for a causal cycle that is a page too, which shows the cycle; of one that is
//! refused otherwise the page of its refusal, with an explanation, which whoever knows what was read makes. In place of
//! the page an object is made (`out_json`), which says of each cut where the last events in it were recorded, and what
//! the variables that the predicate names are worth there.
//!
//! - `form`: what is made of a session
//! - `page`: the page of a session or its object, with its report
//! - `known`: what is known of the cuts of a session's answers
//! - `stream_file`: the files of a session's streams
//! - `sources`: where the events of a session were recorded
//! - `pages`: makes the page of a session, or its object
//! - `explorations`: explores a session: makes its page or its object, and writes it
#![tactic(auto)]

mod explorations;
mod form;
mod known;
mod page;
mod pages;
mod sources;
mod stream_file;

pub use explorations::{explore, explore_watched, refused_page, write_page};
pub use form::Form;
pub use page::Page;
pub use sources::events_are_recorded;
pub use stream_file::StreamFile;
