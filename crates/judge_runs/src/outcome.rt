//! What comes of a run.
use pd_report::Report;

/// What comes of a run that is tested.
#[derive(Drop)]
pub enum Outcome {
    /// The file of this name can't be opened or read.
    Unread(String),
    /// The document has no predicate of this name, which is in a wish.
    Unnamed(String),
    /// The report on the run.
    Reported(Report),
}
