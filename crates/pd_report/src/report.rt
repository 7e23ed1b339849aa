//! What is reported about a session.
use super::answer::Answer;
use super::refusal::Refusal;

/// What is reported about a session.
#[derive(Debug, Drop)]
pub enum Report {
    /// The session is lawful, and each predicate has its answer.
    Judged {
        /// How many processes the session has.
        processes: u64,
        /// How many events all processes have together.
        events: u64,
        /// How many messages were sent and received.
        messages: u64,
        /// An answer for each predicate, in the document's order.
        answers: Vec<Answer>,
    },
    /// The session is refused.
    Refused(Refusal),
}
