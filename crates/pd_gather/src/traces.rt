//! The traces of a session.
ghost use Rattle.read_traces.specs.SessionTraces.{AreTracesWithin};
ghost use Rattle.read_traces.specs.Views.{trace_view};
ghost use Rattle.pd_events.specs.Views.{result_view};
ghost use Rattle.def_format.specs.Limits.{stream_count_limit};
ghost use Rattle.def_format.specs.Names.{ProcessNames};
ghost use Rattle.def_format.specs.ReadingLaws.{FitsWithin};
ghost use Rattle.def_format.specs.Sessions as sessions;
ghost use Rattle.pd_gather.specs.Views.{IsSession, ReadingFitsWithin, is_trace_of, results_view, session_fault_view, traces_view};
ghost use Rattle.pd_spec.specs.Views.{document_view};
ghost use Rattle.std.specs.List.{list_any, position};
ghost use Rattle.std.specs.Prelude.{◌≡◌, ◌<◌, ℕ, [], List, All, IfOk, IfSome, IsOk, MatchOption, Some, Ok, Err, option_map};

use super::{Gathered, SessionFault};
use def_format::STREAM_COUNT_LIMIT;
use pd_events::StreamFault;
use pd_pred::Names;
use pd_spec::Spec;
use read_traces::Trace;
use std::alloc::{AllocError, Global};

/// The traces of a session with this document, one for each process, in their order, with any number of events each.
/// Memory is taken for the traces alone: each refusal is found without.
///
/// # Errors
/// The first refusal: too many streams; then, of the first stream that has one, its fault or that its process is taken;
/// then the first process that no stream joined. Also if memory runs out.
pub fn session(alloc: Global, spec: &Spec, gathered: Gathered) -> Result<Vec<Trace>, SessionFault>
    ensures exact { IsSession (sessions.session (document_view spec.now).names gathered.streams
        (results_view gathered.readings.items)) result }
    ensures many { stream_count_limit < gathered.streams → result ≡ Err SessionFault.Streams }
    ensures memory { result ≡ Err SessionFault.Memory →
        IsOk (sessions.session (document_view spec.now).names gathered.streams (results_view gathered.readings.items)) }
    ensures fits { IfOk result (λ traces. (limit : ℕ)
        → All (ReadingFitsWithin limit (document_view spec.now).names) gathered.readings.items
        → AreTracesWithin limit (document_view spec.now).names traces.items) }
{
    session_within(alloc, STREAM_COUNT_LIMIT as u64, spec, gathered)
}

/// The same, if there may be this many streams.
///
/// It takes time for the square of the number of streams.
///
/// # Errors
/// The same.
pub fn session_within(
    alloc: Global,
    most: u64,
    spec: &Spec,
    gathered: Gathered,
) -> Result<Vec<Trace>, SessionFault>
    ensures exact { IsSession (sessions.session_within most (document_view spec.now).names gathered.streams
        (results_view gathered.readings.items)) result }
    ensures many { most < gathered.streams → result ≡ Err SessionFault.Streams }
    ensures memory { result ≡ Err SessionFault.Memory →
        IsOk (sessions.session_within most (document_view spec.now).names gathered.streams
        (results_view gathered.readings.items)) }
    ensures fits { IfOk result (λ traces. (limit : ℕ)
        → All (ReadingFitsWithin limit (document_view spec.now).names) gathered.readings.items
        → AreTracesWithin limit (document_view spec.now).names traces.items) }
{
    if gathered.streams > most {
        return Err(SessionFault::Streams);
    }
    let readings = gathered.readings;
    if let Some(fault) = first_fault(&readings) {
        return Err(fault);
    }
    if let Some(process) = first_absent(spec.names(), &readings) {
        return Err(SessionFault::Absent(process));
    }
    Ok(in_order(alloc, spec.names(), readings)?)
}

/// The fault of the first stream that has one.
fn first_fault(readings: &[Result<Trace, StreamFault>]) -> Option<SessionFault>
    ensures { option_map session_fault_view result
        ≡ option_map Some (sessions.first_stream_fault [] (results_view readings.now)) }
{
    for i in 0..readings.len() {
        let fault = fault_after(&readings[..i], &readings[i]);
        if fault.is_some() {
            return fault;
        }
    }
    None
}

/// The fault of a stream after these: its own, or that one of them joined its process.
fn fault_after(
    before: &[Result<Trace, StreamFault>],
    reading: &Result<Trace, StreamFault>,
) -> Option<SessionFault>
    ensures { option_map session_fault_view result
        ≡ option_map Some (sessions.stream_fault (results_view before.now) (result_view reading.now)) }
{
    let stream = before.len() as u64;
    match reading {
        Err(fault) => Some(SessionFault::Stream(stream, *fault)),
        Ok(trace) => {
            if has_joined(trace.process, before) {
                Some(SessionFault::Taken(stream, trace.join_line))
            } else {
                None
            }
        }
    }
}

/// Whether one of the streams joined this process.
fn has_joined(process: usize, readings: &[Result<Trace, StreamFault>]) -> bool
    ensures { result ≡ list_any (is_trace_of process) readings.now }
{
    readings.iter().any(|reading| joins(process, reading))
}

/// Whether the stream joined this process.
fn joins(process: usize, reading: &Result<Trace, StreamFault>) -> bool
    ensures { result ≡ is_trace_of process reading.now }
{
    match reading {
        Ok(trace) => trace.process == process,
        Err(_) => false,
    }
}

/// The first process that no stream joined, if no stream has a fault.
fn first_absent(names: &Names, readings: &[Result<Trace, StreamFault>]) -> Option<usize>
    ensures { MatchOption result (IsOk (sessions.traces_from 0 names.now (results_view readings.now)))
        (λ process. sessions.traces_from 0 names.now (results_view readings.now) ≡ Err (sessions.Absent process)) }
{
    for p in 0..names.processes() {
        if !has_joined(p, readings) {
            return Some(p);
        }
    }
    None
}

/// The traces in the processes' order, if each process has one.
fn in_order(
    alloc: Global,
    names: &Names,
    mut readings: Vec<Result<Trace, StreamFault>>,
) -> Result<Vec<Trace>, AllocError>
    requires complete { IsOk (sessions.traces_from 0 names.now (results_view readings.items)) }
    ensures exact { IfOk result (λ traces. sessions.traces_from 0 names.now (results_view readings.items)
        ≡ Ok (traces_view traces.items)) }
    ensures fits { IfOk result (λ traces. (limit : ℕ) → All (ReadingFitsWithin limit names.now) readings.items
        → AreTracesWithin limit names.now traces.items) }
{
    let mut traces = Vec::with_capacity(alloc, names.processes())?;
    for p in 0..names.processes() {
        let trace = take_trace(p, &mut readings).unwrap();
        traces.push(trace)?;
    }
    Ok(traces)
}

/// Takes the trace of this process out, if there is one.
fn take_trace(process: usize, readings: &mut Vec<Result<Trace, StreamFault>>) -> Option<Trace>
    ensures value { option_map trace_view result ≡ sessions.trace_of process (results_view readings.old.items) }
    ensures others { (q : ℕ) → (q ≡ process → ⊥) →
        sessions.trace_of q (results_view readings.new.items) ≡ sessions.trace_of q (results_view readings.old.items) }
    ensures left { (limit : ℕ) (names : List ProcessNames) → All (ReadingFitsWithin limit names) readings.old.items
        → All (ReadingFitsWithin limit names) readings.new.items }
    ensures fits { IfSome result (λ trace. (limit : ℕ) (names : List ProcessNames)
        → All (ReadingFitsWithin limit names) readings.old.items → FitsWithin limit names (trace_view trace)) }
{
    let at = place_of(process, readings)?;
    readings.remove(at).ok()
}

/// Where the trace of this process is.
fn place_of(process: usize, readings: &[Result<Trace, StreamFault>]) -> Option<usize>
    ensures { result ≡ position (is_trace_of process) readings.now }
{
    readings.iter().position(|reading| joins(process, reading))
}
