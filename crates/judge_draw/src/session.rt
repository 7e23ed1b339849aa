//! The session that a report is held against.
ghost use Rattle.judge_draw.specs.Sessions.{IsRead};
ghost use Rattle.pd_gather.specs.Views.{traces_view};
ghost use Rattle.judge_session.specs.Inquiries.{inquiry_view};
ghost use Rattle.judge_session.specs.SessionReports.{IsReportOfInputs};
ghost use Rattle.judge_session.specs.Unanswered.{IsUnanswered, NamesNoCycle};
ghost use Rattle.pd_spec.specs.Views.{document_view};
ghost use Rattle.read_traces.specs.SessionTraces.{AreTraces};
ghost use Rattle.std.specs.Prelude.{◌≡◌, All, IfErr, IfOk, false, map};

use judge_session::{Inquiry, Unanswered, read_inquiry, traces_of};
use pd_gather::{ByteSource, read_streams};
use pd_spec::Spec;
use read_traces::Trace;
use std::alloc::Global;
use std::sync::Wait;
use std::thread::Threads;

/// A session's document, and the traces of its streams.
#[derive(Drop)]
pub struct Session {
    /// The document, with what was asked.
    pub spec: Spec,
    /// The trace of each process, in the order of the processes.
    pub traces: Vec<Trace>,
}

/// Reads a session, the streams each on its own thread, or says why it comes to no answers before its messages are
/// matched.
///
/// # Errors
/// `Refused` if the document or the streams are refused, and `Memory`.
pub fn read_session<T: Threads + Wait + Sync, R: ByteSource + Send + Drop>(
    rt: &T,
    alloc: Global,
    inquiry: Inquiry<'_, '_, '_>,
    streams: Vec<R>,
) -> Result<Session, Unanswered>
    requires open { All (λ r. R.has_ended r ≡ false) streams.items }
    ensures read { IfOk result (λ session. IsRead (inquiry_view inquiry.entry) (map R.left streams.items)
        (document_view session.spec) (traces_view session.traces.items)) }
    ensures fit { IfOk result (λ session. AreTraces (document_view session.spec).names session.traces.items) }
    ensures refused { IfErr result (IsUnanswered
        (IsReportOfInputs (inquiry_view inquiry.entry) (map R.left streams.items))) }
    ensures no_cycle { IfErr result (IsUnanswered NamesNoCycle) }
{
    let spec = read_inquiry(alloc, inquiry)?;
    let gathered = read_streams(rt, alloc, &spec, streams)?;
    let traces = traces_of(alloc, &spec, gathered)?;
    Ok(Session { spec, traces })
}
