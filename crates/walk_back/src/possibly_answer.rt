//! Whether some consistent cut satisfies.
use pd_clock::Cut;

/// Whether some consistent cut satisfies.
#[derive(Drop)]
pub enum PossiblyAnswer {
    /// This one does. It has the fewest events of all that do, and of those with as many it is the first in
    /// lexicographic order of the counts.
    Yes(Cut),
    /// None does.
    No,
    /// The level of this many events is the first with more cuts than the bound, and no cut below it satisfies.
    Unknown(u64),
}
