//! What is asked of a run.
use pd_pred::Pred;
use pd_spec::Spec;
use read_traces::Trace;

/// A session, and a predicate of which it is asked why no consistent cut satisfies it.
#[derive(Clone, Copy)]
pub struct Asked<'a> {
    /// The document.
    pub spec: &'a Spec,
    /// The events of each process, in the order of the processes.
    pub traces: &'a [Trace],
    /// The predicate.
    pub pred: &'a Pred,
}
