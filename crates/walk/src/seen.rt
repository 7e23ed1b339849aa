//! What is seen of a predicate at a level.

use super::stage::Stage;
use walk_marks::Marks;

/// What is seen of a predicate at a level, beside what was known of it before.
#[derive(Drop)]
pub(crate) enum Seen {
    /// What was known stands after the level too.
    Nothing,
    /// Possibly is answered at the level. This is known after it.
    First(Stage),
    /// The marks of the level. Possibly was answered before.
    Next(Marks),
}
