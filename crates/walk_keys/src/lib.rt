//! What the walk's inner loops are made of: truths as the bits of a word, cuts as keys, tests on neighboring cuts, and
//! work that threads share.
//!
//! A key is a cut as one number whose digits are its counts, 16 bits each, with the count of process 0 highest, so cuts
//! in lexicographic order are numbers that ascend. A pair of machine words costs nearly twice what one word does, so
//! each computation's cuts have the smaller key that has room for them.
//!
//! The cuts of a run have one prefix, which is the counts of all processes but the last two, and one number of events:
//! from one of them to the next the count of the last process but one goes up by 1, and that of the last one down by 1.
//! `RunTest` is a test that answers for up to 64 such neighbors at once. Predicates as tables implement it, and levels
//! as runs are searched by it, so neither depends on the other.
//!
//! `values_of` shares work on numbered things between threads. Each thread draws the next numbers that none has drawn
//! yet, so a thread that is slow leaves the others more to do. Results are put in the order of the numbers, so neither
//! the number of threads nor their turns show in them.
//!
//! - `bits`: up to 64 truths as the bits of one word
//! - `key`: what a key is
//! - `single`: counts in one number
//! - `pair`: counts in a pair of numbers
//! - `run_test`: such a test, and what its answers mean
//! - `found`: what one thread finds of the numbers that it draws
//! - `values`: what is found of all numbers, in their order
#![tactic(auto)]

pub mod bits;
mod found;
mod key;
mod pair;
mod run_test;
mod single;
mod values;

pub use key::Key;
pub use pair::Pair;
pub use run_test::RunTest;
pub use single::SINGLE_LIMIT;
pub use values::values_of;
