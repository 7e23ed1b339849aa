//! Whether each observation has a cut that satisfies a predicate.
use super::path::Path;

/// Whether each observation has a cut that satisfies a predicate.
#[derive(Debug, Drop)]
pub enum Definitely {
    /// The first lattice level, counted from 0, that no observation reaches without such a cut.
    Yes(u64),
    /// There is an observation with none: the names of the processes whose events it has, in order.
    No(Path),
    /// The lattice level, counted from 0, that has more cuts than the width allows.
    Unknown(u64),
}
