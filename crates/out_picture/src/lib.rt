//! The picture of a run: what is drawn where, as a drawing of shapes, and the options of `draw`.
//!
//! A picture has a line for each process with its events in order as dots, an arrow from each send to each of its
//! receipts, and the evidence: a cut as a line across the processes with what the variables are worth there, and an
//! observation through it, or an observation alone. The values stand right of all lanes, where no arrow comes to. The
//! steps of an observation are numbers at the events. A send that no event receives has a broken arrow. An event's
//! column is the length of the longest chain of events that ends in it, so it stands right of all that happened before
//! it, and each arrow points forward. Each event and each arrow of the columns that are shown stands in it exactly
//! once. If a run has more columns than fit a page, those around the evidence are shown, or those that are asked for,
//! and the picture says which; a message of which one end isn't shown has a diamond there.
//!
//! - `columns`: the columns of events
//! - `window`: the columns that are shown
//! - `evidence`: what a picture shows of a run beside the run
//! - `shapes`: adds shapes to those that are there
//! - `texts`: texts of a length
//! - `rooms`: how much room texts are given
//! - `headings`: what a picture says in words
//! - `lanes`: the lines of the processes
//! - `messages`: the arrows of messages
//! - `ends`: the marks of messages of which one end isn't shown
//! - `received`: which sends are received
//! - `flights`: the arrows of messages in flight
//! - `dots`: the events that are shown, and their dots
//! - `cut`: a cut across the processes
//! - `steps`: the numbers of the steps of an observation
//! - `pictures`: the picture of a run
//! - `cycle_columns`: the columns of a run in which there is a causal cycle
//! - `cycle_marks`: the marks of a causal cycle
//! - `cycle_pictures`: the picture of a run in which there is a causal cycle
//! - `kind`: the kinds of evidence
//! - `label`: what is noted of events, and the picture that it may stand in
//! - `labels`: what is noted of events, below their dots
//! - `extent`: how much of a run is shown
//! - `draw_options`: all that is asked of a picture
#![tactic(auto)]

mod columns;
mod cut;
mod cycle_columns;
mod cycle_marks;
mod cycle_pictures;
mod dots;
mod draw_options;
mod ends;
mod evidence;
mod extent;
mod flights;
mod headings;
mod kind;
mod label;
mod labels;
mod lanes;
mod messages;
mod pictures;
mod received;
mod rooms;
mod shapes;
mod steps;
mod texts;
mod window;

pub use columns::columns_stand_right;
pub use cut::values_stand_clear;
pub use cycle_pictures::cycle_picture;
pub use draw_options::DrawOptions;
pub use evidence::Evidence;
pub use extent::Extent;
pub use kind::Kind;
pub use label::{EventLabel, NotedPicture};
pub use labels::with_labels;
pub use pictures::picture;
