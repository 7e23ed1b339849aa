//! Reads a bundle from a source, in pieces, and cuts it into its parts. No bundle is held in memory.
//!
//! - `cutter`: cuts a bundle that comes in pieces into its parts
//! - `next`: what comes next of a bundle
//! - `bundle`: reads a bundle, step by step
//! - `parts`: reads the parts of a bundle, one after another
//! - `fault`: why a bundle wasn't read
#![tactic(auto)]

mod bundle;
mod cutter;
mod fault;
mod next;
mod parts;

pub use bundle::Bundle;
pub use fault::BundleFault;
pub use next::Next;
pub use parts::{read_document_part, read_stream_parts, skip_parts};
