//! What a page shows.
use super::{Extras, Source};
use pd_match::Place;
use pd_report::Answer;
use pd_spec::Spec;
use read_traces::Trace;

/// What a page shows of a session's report.
#[derive(Clone, Copy)]
pub enum Outcome<'a> {
    /// The session is judged: the answers for its predicates, in their order.
    Answers(&'a [Answer]),
    /// The session is refused for a causal cycle: its events, each by the name of its process and its number.
    Cycle(&'a [(String, u64)]),
}

/// What a page shows: a session and its report.
#[derive(Clone, Copy)]
pub struct Content<'a, 'b, 'c> {
    /// The session's document.
    pub spec: &'a Spec,
    /// What the page has beside the session.
    pub extras: &'a Extras<'c>,
    /// Where the events of its processes were recorded, in their order.
    pub sources: &'a [Source<'b>],
    /// The traces of its processes, in their order.
    pub traces: &'a [Trace],
    /// Its messages, each as its send and its receipt.
    pub pairs: &'a [(Place, Place)],
    /// What is shown of its report.
    pub outcome: Outcome<'a>,
}
