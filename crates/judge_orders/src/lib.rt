//! The order of a run: what its document's predicates see of it. Runs of one document and one order have the same
//! answers, whatever else happened in them.
//!
//! - `named`: the variables that are seen
//! - `kept`: the events that set one of them to another value
//! - `ranks`: how many of these a process has up to each of its events
//! - `seen`: what is seen of a process
//! - `same`: whether the same is seen of two processes
//! - `hashing`: a hash of what is seen of processes
//! - `memory`: how much memory an order takes
//! - `order`: the order of a run
//! - `parts`: the order of some processes of a run
//!
//! Of a run of any length, by its traces:
//!
//! - `process_kept`: what is kept of a process
//! - `rank_table`: what each event knows of
//! - `known_rows`: what the kept events know of
//! - `long_order`: the order of the run
#![tactic(auto)]

mod hashing;
mod kept;
mod known_rows;
mod long_order;
mod memory;
mod named;
mod order;
mod parts;
mod process_kept;
mod rank_table;
mod ranks;
mod same;
mod seen;

pub use kept::{all_kept_events, value_after};
pub use long_order::{KeptRun, order_of_traces};
pub use named::named_vars;
pub use order::{Order, ProcessOrder, order_of};
pub use parts::{part_of, seen_places};
pub use ranks::{columns, rank};
