//! A predicate of which each comparison speaks of one process as an `or` of terms, each of which is an `and` of
//! comparisons.
//!
//! A cut satisfies such a predicate exactly if it satisfies one of its terms, and a term exactly if each process is at
//! a count that is good for its comparisons. So the least cut of a term is found without the lattice of all cuts.
//!
//! ```text
//! (a.n > 1 or b.n == 4) and c.n > 0    has the terms    a.n > 1 and c.n > 0,    b.n == 4 and c.n > 0
//! ```
//!
//! Negations are pushed down to the comparisons. Where a comparison holds is kept in a row, by the counts of its
//! process; a term is the numbers of its rows. Equal comparisons have one row.
//!
//! - `local`: whether each comparison speaks of one process at most
//! - `term_count`: how many terms a predicate has
//! - `few`: whether it has few of them
//! - `changes`: which events change what is true of a comparison
//! - `truths`: truths by count, as the bits of words
//! - `row`: where a comparison holds
//! - `known`: rows that equal comparisons share
//! - `joins`: how terms are joined
//! - `build`: how terms are made
//! - `terms`: the terms of a predicate
//! - `rows`: rows of comparisons that a caller chooses, and their terms
//! - `first`: the first satisfying cut, by terms
//! - `clause`: predicates that are an `or` of comparisons, and what decides Definitely of them
//! - `conjunction`: predicates that have one term, and what the observations pass through
//! - `never`: the path of an observation where no cut satisfies
//! - `passage`: whether every observation passes through a satisfying cut, by terms
#![tactic(auto)]

mod build;
mod changes;
mod clause;
mod conjunction;
mod few;
mod first;
mod joins;
mod known;
mod local;
mod never;
mod passage;
mod row;
mod rows;
mod term_count;
mod terms;
mod truths;

pub use clause::{ByClause, definitely_by_clause};
pub use few::{TERM_LIMIT, has_few_terms};
pub use first::first_by_terms;
pub use joins::{constant, joined, single};
pub use known::is_same_sum;
pub use local::name_one;
pub use never::path_of_all;
pub use passage::{PassageByTerms, definitely_by_terms};
pub use row::zeros;
pub use rows::Rows;
pub use term_count::count;
pub use terms::{Term, Terms};
