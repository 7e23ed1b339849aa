//! Why no consistent cut of a run satisfies a predicate: receipts whose messages are enough for that.
//!
//! Some receipts are enough if no counts of events that have the send of each of them satisfy the predicate: then no
//! run with the same events does, however else these are ordered, if those messages are among its messages. Whether
//! they are enough is asked of the run in which all other receipts are local events, by terms, by the counts of two
//! processes or by sums, as `wide` does. A search leaves out what isn't needed.
//!
//! - `asked`: what is asked of a run
//! - `laws`: what it means that receipts are enough
//! - `marks`: which events of a process are among some places
//! - `reduce`: traces in which receipts that aren't kept are local events
//! - `receipts`: the receipts of a run
//! - `trial`: whether some receipts are enough
//! - `range`: how many candidates are enough with those that are kept
//! - `search`: the search for receipts that are enough and needed
//! - `causes`: why no consistent cut satisfies
//! - `own`: where nothing but the order of one process connects two messages
#![tactic(auto)]

mod asked;
mod causes;
mod laws;
mod marks;
mod own;
mod range;
mod receipts;
mod reduce;
mod search;
mod trial;

pub use asked::Asked;
pub use causes::causes_of;
pub use laws::{what_is_enough, what_is_left};
pub use own::own_orders;
pub use search::Causes;
