//! The answer for one predicate.
use super::definitely::Definitely;
use super::possibly::Possibly;

/// The answer for one predicate.
#[derive(Debug, Drop)]
pub struct Answer {
    /// The predicate's name.
    pub name: String,
    /// Whether some consistent cut satisfies it.
    pub possibly: Possibly,
    /// Whether each observation has a cut that satisfies it.
    pub definitely: Definitely,
}
