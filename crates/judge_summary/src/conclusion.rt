//! What comes of the runs that a summary counts.

/// What comes of the runs that a summary counts.
#[derive(Clone, Copy, Debug, PartialEq, Eq)]
pub enum Conclusion {
    /// No run failed, and each was judged.
    AllPass,
    /// Some run failed.
    SomeFails,
    /// No run failed, and some was not judged.
    SomeNotJudged,
}
