//! The events of processes, as they are kept.
//!
//! The events of a process stand in columns, so no event takes memory of its own. What is made of lines here is what
//! messages are matched in, and clocks and states are counted over.
//!
//! - `event`: events and traces
//! - `entry`: where the parts of an event stand in the columns of a process's events
//! - `kind`: the kind of an event, as it is seen there
//! - `numbers`: a column of numbers
//! - `settings`: what an event sets, as it is seen there
//! - `events`: the events of a process, in columns
//! - `initial`: the values of variables before any event
#![tactic(auto)]

mod entry;
mod event;
mod events;
mod initial;
mod kind;
mod numbers;
mod settings;

pub use event::{Event, EventKind, Trace};
pub use events::{Events, seen};
pub use initial::InitialValues;
pub use kind::Kind;
pub use numbers::Numbers;
pub use settings::Settings;
