//! The posts of a history.
use crate::step::Step;

/// A step with its stream.
#[derive(Clone, Copy)]
pub struct Post {
    /// The stream, by number.
    pub stream: u64,
    /// What it does.
    pub step: Step,
}
