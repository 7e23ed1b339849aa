//! Explores recorded runs that are bundles: a bundle is read into memory, and its streams are explored as files of a
//! session are.
//!
//! - `parts`: the parts of a bundle, in memory
//! - `files`: the streams of a bundle, as files
//! - `pages`: the page of a run that is a bundle
#![tactic(auto)]

mod files;
mod pages;
mod parts;

pub use pages::parts_page;
pub use parts::{Parts, read_parts};
