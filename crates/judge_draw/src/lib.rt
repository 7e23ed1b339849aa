//! From a session and a report on it to what a check finds of the report, or to its picture.
//!
//! The session is read and its computation is built as for a judgement, and nothing is walked: the evidence in the
//! report is checked, or drawn. What is written is exactly the text that the definitions give, whole, or the call
//! fails.
//!
//! If nothing stands against the picture, it shows the run and, of one predicate, the evidence that the check found
//! good: the cut of a *possibly yes* with what the predicate's variables are worth there and an observation through it,
//! else the observation of a *definitely no*. Without a name the predicate is the first one that has evidence, and if
//! none has, the run stands alone. If one kind of evidence is asked for, no other counts, and without it there is no
//! picture. If something stands against it, what the check finds is given in the picture's place.
//!
//! - `session`: the session that a report is held against
//! - `checks`: checks a report's evidence
//! - `drawings`: draws a report's evidence
//! - `choice`: which predicate is drawn
//! - `values`: what a predicate's variables are worth
//! - `exhibit`: the evidence that is drawn, and what the picture is called
//! - `labels`: what is noted of the events of a session
//! - `run`: the session that is drawn, as it has been read
//! - `drawn`: the picture, or what stands against it
//! - `refused`: the picture of a session that is refused for a causal cycle
#![tactic(auto)]

mod checks;
mod choice;
mod drawings;
mod drawn;
mod exhibit;
mod labels;
mod refused;
mod run;
mod session;
mod values;

pub use checks::{check, check_inquiry, finding_of};
pub use drawings::{DrawOutcome, draw};
pub use judge_check::{Checked, Finding, Verdict};
pub use session::{Session, read_session};
