//! Whether every observation passes through a satisfying cut.

/// Whether every observation passes through a cut that satisfies.
#[derive(Drop)]
pub enum DefinitelyAnswer {
    /// Each one does. The level of this many events is the least that has no avoiding cut.
    Yes(u64),
    /// This one doesn't: the processes, counted from 0, in the order in which their events happen. From the full cut
    /// backward each step undoes the event of the least process that leaves an avoiding cut.
    No(Vec<usize>),
    /// The level of this many events is the least with more avoiding cuts than the bound.
    Unknown(u64),
}
