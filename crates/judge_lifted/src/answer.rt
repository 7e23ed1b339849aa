//! What the reduction of a run says of a predicate.

/// Whether a predicate holds at some cut of a run.
#[derive(Drop)]
pub enum Reached {
    /// It holds at the consistent cut with these counts.
    At(Vec<u64>),
    /// It holds at none.
    Never,
    /// That isn't known.
    Unknown,
}

/// What the reduction of a run says of a predicate.
#[derive(Drop)]
pub struct LiftedAnswer {
    /// Whether it holds at some cut of the run.
    pub possibly: Reached,
    /// Whether each observation of the run has a cut at which it holds, if that is known.
    pub definitely: Option<bool>,
}
