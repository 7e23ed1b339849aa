//! How much of a run is shown.

/// How much of a run is shown.
#[derive(Clone, Copy, Debug, PartialEq, Eq)]
pub enum Extent {
    /// The columns around the evidence, as many as a page has room for.
    Around,
    /// The columns from this one on, counted from 1, as many as a page has room for.
    From(u64),
    /// All columns.
    All,
}
