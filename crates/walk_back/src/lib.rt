//! The walk by lists of avoiding cuts, and the way back from the full cut to an avoiding observation.
//!
//! Lists of cuts serve any computation, also where whole levels are too wide or have no table. The levels that are held
//! for a predicate stand in a `Holder`, which counts how many there were at once; of a walk up the levels only some are
//! kept. From the full cut the way leads down from one kept level to the next, and each step undoes the event of the
//! least process that leaves an avoiding cut. Between two kept levels the way is searched depth first; where the search
//! finds too many dead ends, the levels in between are made again. Below the lowest kept level no cut satisfies, so
//! every cut there avoids, and no level is needed.
//!
//! - `question`: what the answers for one predicate by lists go by
//! - `listed`: the walk up the levels of the avoiding cuts alone
//! - `by_tables`: the avoiding cuts of the next level, by the tables of a compiled predicate
//! - `both_by_lists`: both answers for one predicate by lists of cuts alone, which serve any computation
//! - `held`: whole levels that are held at once, and the greatest number of them
//! - `holder`: the levels that are held at once for a predicate
//! - `count`: how many they were at most
//! - `avoiding`: the avoiding cuts of a level
//! - `undo`: cuts without the last event of a process
//! - `dead`: the dead ends of a search
//! - `search`: what a search goes by
//! - `depth`: the way down to a kept level, searched depth first
//! - `descent`: the way down to a kept level
//! - `free`: the way down where every cut avoids
//! - `back`: the whole way
//! - `possibly_answer`, `definitely_answer`, `answers`: the answers
//! - `split`: what is kept of a predicate for which Possibly is answered
//! - `ends`: where a walk by avoiding cuts ends
//! - `by_lists`: the answer for Possibly by lists of cuts
//! - `root`: how many levels from one that is kept to the next
#![tactic(auto)]

mod answers;
mod avoiding;
mod back;
mod both_by_lists;
mod by_lists;
mod by_tables;
mod count;
mod dead;
mod definitely_answer;
mod depth;
mod descent;
mod ends;
mod free;
mod held;
mod holder;
mod listed;
mod possibly_answer;
mod question;
mod root;
mod search;
mod split;
mod undo;

pub use answers::Answers;
pub use avoiding::{first_avoiding, next_avoiding, next_of_any};
pub use back::way_back;
pub use both_by_lists::answers_by_lists;
pub use by_lists::possibly_by_lists;
pub use count::Count;
pub use definitely_answer::DefinitelyAnswer;
pub use ends::end_at;
pub use held::Held;
pub use holder::Holder;
pub use listed::walk_listed;
pub use possibly_answer::PossiblyAnswer;
pub use question::Question;
pub use root::least_root;
pub use split::{Split, is_due};
