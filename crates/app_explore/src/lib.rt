//! Explores the session in files: judges it, and writes its page, or the object of its report.
//!
//! At status 0 the page is written on which the run is explored, and at 1 the page of a refusal; with JSON the object
//! of the report, in which each cut has its lines and values. What is left stands in `specs/Explorations.antt`.
//!
//! - `wished`: looks up the predicates that conditions and wishes name
//! - `page_extras`: what a page has beside its session, by what is asked for
//! - `exploration`: explores the session in files
#![tactic(auto)]

mod exploration;
mod page_extras;
mod wished;

pub use exploration::{explore_files, object_files, stream_files};
pub use page_extras::extras_of;
