//! Cuts a bundle that is all there into its parts, which are texts.
//!
//! - `separators`: where the parts of a bundle end
//! - `texts`: the texts of the parts of a bundle
#![tactic(auto)]

mod separators;
mod texts;

pub use texts::part_texts;
