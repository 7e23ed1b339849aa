//! How the sessions come, and what is asked of each.
use app_arguments::FailOn;
use pd_spec::Options;

/// How the sessions come, and what is asked of each.
#[derive(Drop)]
pub struct Asked<'a> {
    /// Beside its document.
    pub options: &'a Options<'a>,
    /// The answers to fail on.
    pub fail_on: &'a FailOn<'a>,
    /// How many workers share the work, from 1 to 16.
    pub workers: u64,
    /// Whether they come in bundles, and not in lines.
    pub in_bundles: bool,
}
