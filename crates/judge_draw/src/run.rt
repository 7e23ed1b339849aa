//! A session that has been read, of which a picture is drawn.
use out_picture::EventLabel;
use pd_clock::{Computation, Place};
use pd_spec::Spec;
use read_traces::Trace;

/// A session that has been read: all of it is of the same traces.
#[derive(Clone, Copy)]
pub struct Run<'a, 'b> {
    /// The session document.
    pub spec: &'a Spec,
    /// The computation with its clocks.
    pub computation: &'a Computation<'b>,
    /// The traces, one of each process of the document.
    pub traces: &'a [Trace],
    /// The messages, each as the places of its send and of its receipt.
    pub pairs: &'a [(Place, Place)],
    /// What is noted of its events.
    pub labels: &'a [EventLabel],
}
