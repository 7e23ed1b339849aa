//! How far the answers for a predicate have come.

use walk_back::{Answers, Split};
use walk_marks::Marks;

/// How far the answers for a predicate have come.
#[derive(Drop)]
pub(crate) enum Stage {
    /// No cut so far satisfies.
    Open,
    /// Possibly is answered. The marks are those of the level last looked at.
    Marked { split: Split, marks: Marks },
    /// Both questions are answered.
    Answered(Answers),
}
