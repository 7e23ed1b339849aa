//! What is noted of events, and the picture that it may stand in.

use out_svg::{Drawing, Point};
use pd_clock::Place;

/// What is noted of an event, as short as a picture has it.
#[derive(Debug, Drop)]
pub struct EventLabel {
    /// The event.
    pub(crate) event: Place,
    /// What is noted of it.
    pub(crate) text: String,
}

/// A text at a point.
#[derive(Debug, Drop)]
pub struct Label {
    /// Where the middle of its base line stands.
    pub(crate) at: Point,
    /// The text.
    pub(crate) text: String,
}

/// A picture without what is noted of its events, and the labels that say it.
#[derive(Debug, Drop)]
pub struct NotedPicture {
    /// The picture.
    pub drawing: Drawing,
    /// The labels of the events that are shown.
    pub(crate) labels: Vec<Label>,
}
