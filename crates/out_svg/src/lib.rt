//! Shapes and texts as an SVG picture.
//!
//! A drawing is a list of lines, arrows, circles, polylines and texts, with a title and a description for readers that
//! don't see it. Its text is exactly the one that the definitions give. Each text that is put in is escaped: no byte of
//! it can be read as mark-up. The text reaches a writer whole, or a prefix of it does and the call fails.
//!
//! - `point`: where something stands
//! - `class`: what a shape is drawn as
//! - `anchor`: which part of a text stands at its point
//! - `shape`: one shape
//! - `drawing`: the whole
//! - `escape`: texts without mark-up
//! - `tags`: the beginning of an element, and its attributes
//! - `shape_text`: the element of a shape
//! - `style`: how each class is drawn: one text for all pictures
//! - `drawing_text`: a drawing's text, also written
#![tactic(auto)]

mod anchor;
mod class;
mod drawing;
mod drawing_text;
mod escape;
mod point;
mod shape;
mod shape_text;
mod style;
mod tags;

pub use anchor::Anchor;
pub use class::Class;
pub use drawing::Drawing;
pub use drawing_text::{text, write};
pub use escape::{escaped, push_escaped};
pub use point::Point;
pub use shape::Shape;
