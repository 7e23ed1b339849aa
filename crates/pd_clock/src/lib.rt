//! A finished computation: its events, its consistent cuts and the state at each of them.
//!
//! A computation is seen by contracts as what was recorded: the initial values and the events of each process. A cut is
//! seen as its counts. `build` takes a session with the traces of its processes, and refuses events of which one
//! happened before itself, with the causal cycle. `before` and `clock` decide happened-before, `sender` gives the send
//! of a receipt, `consistent` whether counts are those of a cut that is closed under happened-before, and `can_undo`
//! whether a consistent cut stays one without the last event of a process. `at` gives the state at a cut, whose values
//! are looked up by index and computed once for each event. `value` gives one value by the count of its process alone.
//!
//! `has`, `fits`, `clock` and `before` are for programs that ask about single events and cuts: the walks of this
//! workspace need none of them.
//!
//! - `cut`: counts of events, one for each process
//! - `history`: the values of one process's variables after each of its events
//! - `order`: an order of the events by which each has its clock
//! - `cycle`: the cycle that is reported where there is no such order
//! - `clocks`: whether counts have the past of their last events, and which of these can be undone, by clocks
//! - `computation`: the whole
//! - `state`: the values at a cut
//! - `fault`: why there is no computation
#![tactic(auto)]

mod clocks;
mod computation;
mod cut;
mod cycle;
mod fault;
mod history;
mod order;
mod state;

pub use computation::Computation;
pub use cut::Cut;
pub use cycle::reported_cycle;
pub use fault::BuildFault;
pub use history::apply_settings;
pub use order::next_that_can_go;
pub use pd_match::Place;
pub use state::State;
