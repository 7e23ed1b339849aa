//! What runs come to together.

/// What runs come to together.
#[derive(Clone, Copy)]
pub enum Conclusion {
    /// Each run passes.
    AllPass,
    /// One fails.
    SomeFails,
    /// None fails, and one isn't judged.
    SomeNotJudged,
}
