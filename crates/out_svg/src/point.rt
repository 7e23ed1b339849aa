//! Where something stands.

/// Where something stands: whole units to the right of the picture's left edge, and down from its upper edge.
#[derive(Clone, Copy, Debug, PartialEq, Eq)]
pub struct Point {
    /// To the right.
    pub x: u32,
    /// Down.
    pub y: u32,
}
