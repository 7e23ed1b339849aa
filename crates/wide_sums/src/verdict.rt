//! What a term or a predicate comes to.

/// Whether some consistent cut satisfies, as far as sums decide it.
#[derive(Clone, Copy)]
pub enum Verdict {
    /// A term isn't one that sums decide, or there are too many terms.
    Undecided,
    /// No consistent cut satisfies.
    Unsatisfied,
    /// Some consistent cut satisfies.
    Satisfied,
}
