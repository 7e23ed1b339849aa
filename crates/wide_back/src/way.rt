//! What the search comes to.

/// What the search comes to.
#[derive(Drop)]
pub enum Way {
    /// The processes, counted from 0, in the order in which their events happen in the avoiding observation that is
    /// printed.
    Avoided(Vec<usize>),
    /// Every observation passes through a satisfying cut.
    Passed,
    /// There are too many dead ends.
    Undecided,
}
