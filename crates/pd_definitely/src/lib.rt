//! Whether every observation of a computation passes through a cut that satisfies a predicate, under a bound on the
//! number of the avoiding cuts of a level.
//!
//! An avoiding cut is one that is reached from the empty cut through cuts that don't satisfy, and doesn't satisfy
//! itself. The levels are walked from the empty cut on, as `walk` walks them for a single predicate. The answer is
//! yes at the first level that has no avoiding cut; unknown, if a level has more avoiding cuts than the bound; or no,
//! if the full cut is avoiding, with an observation that is found from the full cut backward. Several workers share the
//! work on wide levels, and their number changes no answer.
//!
//! - `question`: the question and its answer
#![tactic(auto)]

mod question;

pub use question::{definitely, definitely_counted};
pub use walk_back::{Count, DefinitelyAnswer};
