//! The answers for a predicate beyond the width: by its terms, by the counts of the two processes that it names, or for
//! Possibly by those of each part of an `or`, and that no cut satisfies also by sums; for Definitely by a search back
//! from the full cut as well, and by gates.
//!
//! Terms come first, since they take time for the events, and the counts of two processes for their pairs. Where no cut
//! satisfies, the answer for Definitely is known by that, and its path is the same for each predicate. What is final is
//! asked before levels are walked. A yes whose level isn't exact counts where the levels leave it unknown.
//!
//! - `parts`: the parts of a predicate that is an `or`
//! - `possibly`: whether some consistent cut satisfies
//! - `definitely`: whether every observation passes through a satisfying cut
//! - `back`: what gates and the search back find of that
//! - `both`: both answers, as far as they are final, and the level of a yes where the levels leave Definitely unknown
#![tactic(auto)]

mod back;
mod both;
mod definitely;
mod parts;
mod possibly;

pub use both::{Decided, decide};
