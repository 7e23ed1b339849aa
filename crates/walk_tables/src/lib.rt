//! A predicate as tables over the counts of a cut, evaluated for a run of neighboring cuts at a time.
//!
//! A predicate is compiled once for a computation. A comparison of two sums is brought to one sum that is compared with
//! 0, and that sum is taken apart by processes: what a process adds depends on the count of its events alone, so it is
//! a table over these counts, of 64-bit numbers.
//!
//! ```text
//! 2 * a.n - b.m + 3 > c.n    is    3 + A[count of a] + B[count of b] + C[count of c] > 0
//!                                  A[k] = 2 * a.n,  B[k] = -b.m,  C[k] = -c.n   after k events
//! ```
//!
//! Cuts come in runs: all counts but the last two are the same, and from one cut to the next the count before the last
//! goes up by 1 and the last one down by 1. `mask` answers for up to 64 cuts of a run, with a bit for each. It adds
//! what the first processes give once and then walks up one table and down the other. An `and` stops where no cut is
//! left, an `or` where none is missing. `may` says whether some cut with these first counts may satisfy at all: each
//! table knows its least and its greatest number. `mask` asks the same first: a comparison that these numbers decide is
//! answered for the whole run at once. Neither takes memory.
//!
//! A comparison that depends on the count of one process alone is a clause: that process has a word for each count,
//! with a bit that is set where the comparison holds. Words of an `or` of such comparisons are or-ed, and an `and` of
//! up to 64 clauses has a bit for each. The clauses hold at a cut exactly if the words of its counts, or-ed, have all
//! bits. So a long `and` costs two look-ups for a cut, whatever its length. The words of a comparison take the place of
//! its table, and those of several clauses share one row for a process, so they need no room of their own.
//!
//! ```text
//! (a.n > 1 or b.n == 4) and c.n > 0    is    A[count of a] | B[count of b] | C[count of c]  ==  0b11
//! ```
//!
//! An `or` of `and`s of such comparisons is the opposite of an `and` of clauses. So the opposite of a predicate is
//! compiled if it has fewer parts, as its tree says, and the bits of its masks are turned. `may` then asks whether the
//! opposite holds at each cut with these first counts.
//!
//! ```text
//! a.n > 1 and b.n == 4 or c.n > 0    is    not ((a.n <= 1 or b.n != 4) and c.n <= 0)
//! ```
//!
//! Negations are pushed down to the comparisons. A comparison whose least and greatest sums decide it is a constant,
//! and constants go. Parts that are joined in one way stand in a chain to the right: its clauses are asked first, then
//! the other parts in turn, and of the last two the lighter one. Comparisons by tables that follow one another in a
//! chain stand in one list.
//!
//! No number of a table is further from 0 than 2^59, so that no sum wraps. A comparison whose numbers are larger, for
//! which there is no room, or which speaks of a process that isn't there, is evaluated as its text spells it, in 128
//! bits.
//!
//! - `compiled`: the compiled predicate that callers see
//! - `node`: its tree, the masks of runs, and whether a prefix may satisfy
//! - `compile`: how the tree is made
//! - `form`: whether a predicate or its opposite is compiled
//! - `join`: two predicates joined, with clauses as one conjunction
//! - `clauses`: a conjunction of clauses
//! - `clause`: a comparison that depends on one process as a clause
//! - `clause_column`: the clauses that the first processes make true
//! - `row`: the clauses that a process makes true, for each count
//! - `build`: a comparison of two sums as tables
//! - `parts`: what each process adds to the difference of two sums
//! - `linear`: a sum of tables that is compared with 0
//! - `table`: a number for each count of a process
//! - `zero`: how a sum is compared with 0
//! - `run_state`: the state at a cut of a run
//! - `series`: a chain of comparisons by tables
//! - `choices`: choices that are joined in one way
//! - `choice`: comparisons of one sum, which are made together
//! - `allowed`: a set of numbers, as comparisons with constants make it
//! - `points`: a set of single numbers
//! - `size`: how many comparisons a compiled predicate has
//! - `bits`: truths that are put into a word
#![tactic(auto)]

mod allowed;
mod bits;
mod build;
mod choice;
mod choices;
mod clause;
mod clause_column;
mod clauses;
mod compile;
mod compiled;
mod form;
mod join;
mod linear;
mod node;
mod parts;
mod points;
mod row;
mod run_state;
mod series;
mod size;
mod table;
mod zero;

pub use compiled::Compiled;
