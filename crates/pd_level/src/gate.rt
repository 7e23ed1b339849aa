//! What a worker passes before it expands a block of cuts, and what hears how far a judgement has come.

/// A level that a walk has come to.
#[derive(Clone, Copy)]
pub struct Reached {
    /// The level's number, from 0.
    pub number: u64,
    /// The number of the last level.
    pub last: u64,
    /// How many cuts were found there.
    pub cuts: u64,
    /// Whether these are surely all of its consistent cuts.
    pub is_whole: bool,
}

/// A gate that a worker calls before it expands a block of cuts, a walk at each level that it comes to, and who answers
/// predicates beyond the width at each of them.
pub trait Gate {
    /// Called before the block with this number, from 0, is expanded.
    fn pass(&self, block: u64);

    /// Called once a walk has come to a level.
    fn reach(&self, _level: Reached) {}

    /// Called before a predicate is answered beyond the width: which one, counted from 1, and of how many.
    fn ask(&self, _number: u64, _count: u64) {}
}

/// A gate that lets every block pass at once.
#[derive(Clone, Copy)]
pub struct NoGate;

impl Gate for NoGate {
    fn pass(&self, _block: u64) {}
}
