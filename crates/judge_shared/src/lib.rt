//! Runs of one order share their answers: a run is judged unless one of its order was, of which no answer is unknown.
//! If its own judgement leaves an answer unknown, its reduction is judged, too.
//!
//! - `bare`: answers without their evidence
//! - `orders`: the orders of the runs so far, with what is known of each
//! - `found`: what is found of a run
//! - `finals`: the report that stands, once the runs before are known
//! - `reduced`: the answers of a run by its reduction
//! - `reports`: the report of a run
//! - `sessions`: a run by its document and its streams
//! - `trial`: a run that is judged beside others, up to what comes of it
#![tactic(auto)]

mod bare;
mod finals;
mod found;
mod orders;
mod reduced;
mod reports;
mod sessions;
mod trial;

pub use found::Found;
pub use orders::Orders;
pub use reports::run_report;
pub use sessions::session_trial;
pub use trial::{Trial, final_outcomes};
