//! What the reduction of a run says of each predicate: of Possibly with a cut of the run itself, and of Definitely with
//! no evidence. A reduction is often narrow enough to be judged where the run isn't.
//!
//! - `answer`: what the reduction says of a predicate
//! - `cuts`: a cut of the run by a cut of the reduction
//! - `truths`: what the answers of the reduction say of the run
//! - `reduced`: the answers of the reduction
//! - `lifted`: what the reduction says of each predicate
#![tactic(auto)]

mod answer;
mod cuts;
mod lifted;
mod reduced;
mod truths;

pub use answer::{LiftedAnswer, Reached};
pub use lifted::lifted_answers;
