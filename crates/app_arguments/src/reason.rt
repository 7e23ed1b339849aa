//! Why a judgement is to fail.
use super::kind::Kind;
use pd_report::Answer;

/// A condition, and an answer that meets it.
#[derive(Clone, Copy)]
pub struct Reason<'n, 'a> {
    /// The name in the condition, if it has one.
    pub name: Option<&'n [u8]>,
    /// The kind of answer that it asks for.
    pub kind: Kind,
    /// The answer.
    pub answer: &'a Answer,
}
