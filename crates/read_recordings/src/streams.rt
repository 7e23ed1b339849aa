//! What a stream comes to.
ghost use Rattle.def_format.specs.ReadingLaws.{FitsWithin};
ghost use Rattle.def_format.specs.Readings.{IsClosed, result_of};
ghost use Rattle.def_recordings.specs.Recordings.{recorded_event_limit, recorded_reading};
ghost use Rattle.pd_events.specs.Progress.{reading_view, stop_of};
ghost use Rattle.pd_events.specs.Views.{result_view};
ghost use Rattle.pd_spec.specs.Views.{document_view};
ghost use Rattle.read_traces.specs.Views.{trace_view};
ghost use Rattle.std.specs.Prelude.{◌≡◌, IfOk, Some};

use super::lines::next_batch;
use def_recordings::RECORDED_EVENT_LIMIT;
use pd_events::{Phase, Progress, StreamFault};
use pd_spec::Spec;
use read_traces::{Events, Trace};
use std::alloc::{AllocError, Global};

/// Reads the lines of a stream up to its end line or its first fault.
fn read_lines(alloc: Global, spec: &Spec, bytes: &[u8]) -> Result<Progress, AllocError>
    ensures reading { IfOk result (λ progress. reading_view progress.phase progress.events
        ≡ recorded_reading (document_view spec.now).names bytes.now) }
    ensures closed { IfOk result (λ progress. IsClosed (stop_of progress.phase)) }
{
    def_format::lines_are_read();
    let mut progress = Progress {
        phase: Phase::Fresh,
        events: Events::new(alloc),
    };
    let mut number = 1;
    let mut rest = bytes;
    'batches: loop {
        let batch = next_batch(alloc, number, rest)?;
        progress.take_lines(alloc, spec, RECORDED_EVENT_LIMIT, &batch.lines, batch.end)?;
        if progress.phase.is_closed() {
            return Ok(progress);
        }
        number = batch.number;
        rest = batch.rest;
    }
}

/// What a stream comes to whose end line or first fault has come.
fn outcome(progress: Progress) -> Result<Trace, StreamFault>
    requires { IsClosed (stop_of progress.phase) }
    ensures { Some (result_view result) ≡ result_of (reading_view progress.phase progress.events) }
{
    let Progress { phase, events } = progress;
    match phase {
        Phase::Ended(join) => Ok(Trace {
            process: join.process,
            join_line: join.line,
            events,
        }),
        Phase::Faulted(_, fault) => Err(fault),
        Phase::Fresh | Phase::Joined(_) => unreachable!(),
    }
}

/// What a recorded stream comes to of which these are all bytes: its trace, if it has its end line, or its first
/// fault. A line may have 65,536 bytes, its LF aside, and the process 2,147,483,647 events; a stream may have any
/// number of bytes. Lines lend their bytes, so beside the trace this takes memory for 1,024 of them at a time. What
/// follows the end line or the first fault has no record. The time is proportional to the bytes.
///
/// # Errors
/// If memory runs out, or `Events` has no room for the trace, of which all ids may have fewer than 2^32 bytes, and all
/// events fewer than 2^32 settings.
pub fn recorded_stream(
    alloc: Global,
    spec: &Spec,
    bytes: &[u8],
) -> Result<Result<Trace, StreamFault>, AllocError>
    ensures value { IfOk result (λ given. result_of (recorded_reading (document_view spec.now).names bytes.now)
        ≡ Some (result_view given)) }
    ensures fits { IfOk result (λ given. IfOk given (λ trace.
        FitsWithin recorded_event_limit (document_view spec.now).names (trace_view trace))) }
{
    def_format::lines_are_read();
    let progress = read_lines(alloc, spec, bytes)?;
    Ok(outcome(progress))
}
