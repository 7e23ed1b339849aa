//! Draws the session in files, with a report of it or by its own.
//!
//! With a report among the files its evidence is drawn; without one the report that is due. At status 0 the picture is
//! written, and at 1 something that a check finds stands against the report, or the session is refused. What a drawing
//! leaves stands in `specs/Drawings.antt`, and what its picture shows in `specs/ShownDrawings.antt`.
//!
//! - `draw_report`: draws a report that has been read
//! - `whole_files`: reads files whole, up to a limit
//! - `draw_own`: draws a session by the report that is due
//! - `draw_files`: draws the session in files
#![tactic(auto)]

mod draw_files;
mod draw_own;
mod draw_report;
mod whole_files;

pub use draw_files::{draw_noted, report_drawing};
