//! Judges recorded runs that are bundles. A bundle is read to its end, in pieces, and isn't held in memory. Each
//! predicate that is wished for is looked up in its document before a stream is read.
//!
//! - `names`: which runs are bundles, by their names
//! - `parts`: the parts of a bundle, as far as they are kept
//! - `whole_parts`: reads parts of a bundle into memory
//! - `contents`: what a bundle holds that was read to its end
//! - `trials`: what is known of a run that is a bundle while runs before it are judged too
#![tactic(auto)]

mod contents;
mod names;
mod parts;
mod trials;
mod whole_parts;

pub use names::is_bundle_name;
pub use trials::trial_of_bundle;
pub use whole_parts::read_part;
