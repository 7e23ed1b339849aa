//! What is made of a session.
use out_page::Extras;

/// What is made of a session.
#[derive(Clone, Copy)]
pub enum Form<'a, 'e> {
    /// Its page, on which it is explored, with this beside the session.
    Page(&'a Extras<'e>),
    /// Its report as one JSON object, with what is known of the report's cuts.
    Object,
}
