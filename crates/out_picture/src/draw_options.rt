//! What is asked of a picture.

use super::extent::Extent;
use super::kind::Kind;

/// What is asked of a picture.
#[derive(Clone, Copy, Debug)]
pub struct DrawOptions<'a> {
    /// The name of the predicate whose evidence is shown; without it that of the first predicate that has some.
    pub predicate: Option<&'a str>,
    /// Which evidence of the predicate is shown; without it the cut, if it has one, and else the path.
    pub kind: Option<Kind>,
    /// How much of the run is shown.
    pub extent: Extent,
}
