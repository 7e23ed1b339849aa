//! A session, and what else a line may say.

/// A session that stood in a line.
#[derive(Drop)]
pub struct Session {
    /// Its name, if it has one.
    pub id: Option<String>,
    /// The text of its document.
    pub document: String,
    /// The texts of its streams, in their order.
    pub streams: Vec<String>,
}

/// What a line says.
#[derive(Drop)]
pub enum SessionLine {
    /// A session.
    Holds(Session),
    /// Why there is none of this name, by whoever wrote the line.
    Tells(Option<String>, String),
    /// Something else in JSON.
    NoSession,
    /// No JSON value.
    NoJson,
}
