//! A session that was judged, with what was read of it.
use app_text::Source;
use pd_clock::{Computation, Place};
use pd_pred::Names;
use pd_spec::Spec;
use read_notes::{EventNotes, Noted};
use read_traces::Trace;

/// A session that was judged, with what was read of it.
#[derive(Clone, Copy)]
pub struct Session<'a, 'c> {
    /// The document, with what was asked.
    pub spec: &'a Spec,
    /// The events of each process, in the order of the processes.
    pub traces: &'a [Trace],
    /// The computation of these.
    pub computation: &'a Computation<'c>,
    /// What was read of the stream of each process, in the same order, if it is known.
    pub sources: &'a [Option<Source<'a>>],
    /// What was noted of events, if notes were read.
    pub notes: Option<&'a EventNotes>,
}

/// The name of process `p`, which is counted from 0; it is empty if there is no such process.
pub(crate) fn name_of(names: &Names, p: usize) -> &str {
    if p < names.processes() {
        names.name(p)
    } else {
        ""
    }
}

/// The variables of process `p`, which is counted from 0; there are none if there is no such process.
pub(crate) fn vars_of(names: &Names, p: usize) -> &[String] {
    if p < names.processes() {
        names.vars(p)
    } else {
        &[]
    }
}

/// What was noted of the event at this place, if it is known.
pub(crate) fn noted_at<'a>(session: &Session<'a, '_>, place: Place) -> Option<Noted<'a>> {
    let name = name_of(session.spec.names(), place.process);
    session.notes?.of(name, place.number)
}

/// What was read of the stream of process `p`, if it is known.
pub(crate) fn source_of<'a>(sources: &[Option<Source<'a>>], p: usize) -> Option<Source<'a>> {
    match sources.get(p) {
        Some(source) => *source,
        None => None,
    }
}
