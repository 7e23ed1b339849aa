//! One shape.
use super::{Anchor, Class, Point};

/// One shape, or a text.
#[derive(Debug, Drop)]
pub enum Shape {
    /// A straight line.
    Line {
        /// What it is drawn as.
        class: Class,
        /// Where it begins.
        from: Point,
        /// Where it ends.
        to: Point,
    },
    /// A straight line whose end has a head.
    Arrow {
        /// What it is drawn as.
        class: Class,
        /// Where it begins.
        from: Point,
        /// Where it ends.
        to: Point,
    },
    /// A circle.
    Circle {
        /// What it is drawn as.
        class: Class,
        /// Its centre.
        centre: Point,
        /// Its radius.
        radius: u32,
    },
    /// Straight lines, each from where the one before ends.
    Polyline {
        /// What it is drawn as.
        class: Class,
        /// The ends of the lines.
        points: Vec<Point>,
    },
    /// A text on one line.
    Text {
        /// What it is drawn as.
        class: Class,
        /// Where its anchor stands, on its base line.
        at: Point,
        /// Which part of it stands there.
        anchor: Anchor,
        /// The height of its type.
        size: u32,
        /// The text.
        text: String,
    },
}
