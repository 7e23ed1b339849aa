//! The whole.
use super::Shape;

/// Shapes on a page, each over those before it.
#[derive(Debug, Drop)]
pub struct Drawing {
    /// The width of the page.
    pub width: u32,
    /// The height of the page.
    pub height: u32,
    /// What the picture is called.
    pub title: String,
    /// What stands in the picture, for those who don't see it.
    pub description: String,
    /// The shapes, in the order in which they are drawn.
    pub shapes: Vec<Shape>,
}
