//! Reads sessions from lines: each is a JSON object whose field `document` is the text of a session document, `streams`
//! the texts of its streams, and `id` its name, which may be missing. Or from bundles, whose names are their numbers.
//!
//! What a line says, and a bundle, stands in `specs/SessionLines.antt`.
//!
//! - `session`: a session, and what else a line may say
//! - `line`: reads a line
//! - `bundle`: reads a bundle
#![tactic(auto)]

mod bundle;
mod line;
mod session;

pub use bundle::{long_bundle, read_session_bundle};
pub use line::read_session_line;
pub use session::{Session, SessionLine};
