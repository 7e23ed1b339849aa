//! Facts about a session that was judged, for those who explain its answers.
//!
//! Nothing is judged here. Each fact is one of the run that was recorded: what an event did, which variables a
//! predicate names and which no event sets, which processes messages order, and whether a cut has an event. They are
//! stated whole, in the words of `def_model`.
//!
//! - `named`: what a predicate names
//! - `deeds`: what an event did
//! - `values`: what the variables that a predicate names are worth
//! - `settings`: whether an event sets a variable
//! - `links`: which processes messages order
//! - `runs`: events of one process that come one after another in an observation
#![tactic(auto)]

mod deeds;
mod links;
mod named;
mod runs;
mod settings;
mod values;

pub use deeds::{has_event, kind_at};
pub use links::{has_links, leads_to};
pub use named::{names_process, names_variable, sum_names_process};
pub use runs::first_run;
pub use settings::is_set;
pub use values::named_values;
