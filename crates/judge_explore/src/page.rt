//! The page of a session or its object, with its report.
use pd_report::Report;

/// The page of a session, or the object that stands in its place, and the session's report: with the answers that the
/// page shows, or the refusal that it shows.
#[derive(Drop)]
pub struct Page {
    /// The page's text.
    pub text: Vec<u8>,
    /// The report.
    pub report: Report,
}
