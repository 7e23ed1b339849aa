//! The kinds of evidence.

/// The kinds of evidence that a report has of a predicate.
#[derive(Clone, Copy, Debug, PartialEq, Eq)]
pub enum Kind {
    /// The cut of a *possibly yes*.
    Possibly,
    /// The path of a *definitely no*.
    Definitely,
}
