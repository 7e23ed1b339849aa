//! The engine: a session's document and streams in, its report out.
//!
//! It goes a straight way: the document is read, its streams are read each on its own thread and make a session, the
//! session's traces make a computation (`judge_session`), each predicate is answered, and the answers are the report.
//! What is written is exactly the text that the definitions give, whole, or the call fails. If no level is over the
//! width, it tells the truth of each predicate; and if that is asked for, it does so of each that is decided without
//! levels, however wide the session is. What is reported as out of memory is a refused allocation, or a number that has
//! no room, which no session within the limits comes to.
//!
//! While the streams are read an observer may watch the register of their steps, and write snapshots of it
//! (`judge_watched`, `write_snapshot`); the report doesn't depend on it.
//!
//! - `early`: what is decided of each predicate before the walk
//! - `late`: what is answered where the walk leaves Possibly unknown
//! - `answers`: the answers of a session
//! - `reports`: the report of a session
//! - `judges`: judges a session, and writes its report
//! - `bundle_judges`: judges a bundle, and writes its report
//! - `outcome`: how a session was judged
#![tactic(auto)]

mod answers;
mod bundle_judges;
mod early;
mod judges;
mod late;
mod outcome;
mod reports;

pub use answers::answers_of;
pub use bundle_judges::{judge_bundle, write_bundle_report};
pub use judge_session::{EngineFault, Inquiry, read_upto, write_snapshot};
pub use judges::{judge, judge_inquiry, judge_inquiry_watched, judge_watched, write_report};
pub use outcome::{Outcome, report_outcome};
pub use pd_expand::Crew;
pub use pd_gather::{ByteSource, NoObserver, Observer, StreamFault, within_limit};
pub use pd_level::{Gate, NoGate, Reached};
pub use pd_register::{Register, Row, RowState, Snapshot, Watcher};
pub use pd_report::{Answer, Definitely, Possibly, Refusal, Report, text};
pub use pd_spec::{Options, Spec, SpecFault};
pub use reports::{report_inquiry, report_inquiry_watched, report_of};
