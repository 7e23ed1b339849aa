//! Predicates that compare sums over several processes, decided at any width without walking a level.
//!
//! Such a predicate is an `or` of terms, each of which is an `and` of comparisons. The comparisons of a term that name
//! one process at most say which counts of each process are good: the cuts at which all counts are good are the slice
//! of the term. What is left of the term are the sums, its comparisons that name several processes.
//!
//! ```text
//! a.up == 1 and a.n + b.n > 3 or c.n == 0    has the terms    a.up == 1 and a.n + b.n > 3,    c.n == 0
//!                                            with the sums    a.n + b.n > 3,                  none
//! ```
//!
//! - `literal`: a comparison of a term
//! - `literals`: the terms of a predicate, by the numbers of their comparisons
//! - `there`: whether a predicate names no process but those that are there
//! - `values`: what each process adds to a sum, by the count of its events
//! - `prepared`: the slice of each term, and its sums
//! - `excess`: by how much one sum is more than the other over a slice
//! - `excluded`: which comparisons no cut of a slice satisfies
//! - `steps`: whether events change a sum by small steps
//! - `solved`: which `==` are decided
//! - `term`: what a term comes to
//! - `decide`: what a predicate comes to
//! - `verdict`: whether it can be satisfied, or is undecided
//! - `lower`: which of two cuts is lower
//! - `lowest`: the lowest cut of a slice that satisfies a comparison
//! - `first`: the first satisfying cut, by height
#![tactic(auto)]

mod decide;
mod excess;
mod excluded;
mod first;
mod literal;
mod literals;
mod lower;
mod lowest;
mod prepared;
mod solved;
mod steps;
mod term;
mod there;
mod values;
mod verdict;

pub use decide::verdict_by_sums;
pub use first::first_by_sums;
pub use there::names_no_other;
pub use values::values_of;
pub use verdict::Verdict;
