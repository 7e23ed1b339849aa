//! Whether some consistent cut satisfies a predicate.

/// Whether some consistent cut satisfies a predicate.
#[derive(Debug, Drop)]
pub enum Possibly {
    /// The first such cut: how many events of each process it has.
    Yes(Vec<u64>),
    /// There is none.
    No,
    /// The lattice level, counted from 0, that has more cuts than the width allows.
    Unknown(u64),
}
