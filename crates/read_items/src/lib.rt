//! Reads a source item by item: the bytes between lines `===`, with memory for one item and one line.
//!
//! An item that is longer than a bundle may be is read past, and its bytes are dropped as they come.
//!
//! - `dividers`: which lines divide items
//! - `kept`: what is kept of an item
//! - `items`: the items of a source
#![tactic(auto)]

mod dividers;
mod items;
mod kept;

pub use items::next_item;
