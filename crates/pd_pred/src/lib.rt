//! The predicate language: names that a predicate may speak of, the reader of its text, and what it means at a state.
//!
//! A text is read exactly if it is a predicate of the grammar over the session's names; otherwise the first fault is
//! reported with its byte. A predicate is evaluated over whole numbers without bound, and takes no memory for it. Its
//! syntax tree is there for those who compile it.
//!
//! - `name`: what is a name
//! - `names`: the processes of a session and their variables
//! - `error`: why a text is refused
//! - `predicate`: the predicate itself
//! - `token`, `lexer`: the tokens of a text, and how they are read
//! - `numbers`: the numbers that digits write, and their limits
//! - `state`, `openers`, `placement`: what may stand next, what is open, and which token is misplaced
//! - `tree`, `build`: the syntax tree, and how it is built of tokens of which none is misplaced
//! - `evaluate`: what a tree means at a state
#![tactic(auto)]

mod build;
mod error;
mod evaluate;
mod lexer;
mod name;
mod names;
mod numbers;
mod openers;
mod placement;
mod predicate;
mod state;
mod token;
mod tree;

pub use def_model::Values;
pub use error::{PredError, PredErrorKind};
pub use name::is_name;
pub use names::{Names, ProcessNames};
pub use predicate::Pred;
pub use tree::{Comparison, Sign, SignedTerm, Sum, Term, Tree};
