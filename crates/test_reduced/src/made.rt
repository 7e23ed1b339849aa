//! The reduction of a session's run, and whether it consists of the expected events.
use def_format::STREAM_COUNT_LIMIT;
use judge_reduced::reduced_run;
use pd_clock::Computation;
use pd_match::match_messages;
use pd_spec::Spec;
use read_traces::{Events, Kind, Settings, Trace};
use std::alloc::Global;
use std::random::RandomSource;
use test_samples::traces_of;

/// Whether both kinds are the same, of events that send or receive.
fn is_same_kind(kind: Kind<'_>, other: Kind<'_>) -> bool {
    match (kind, other) {
        (Kind::Send(id), Kind::Send(other)) => id == other,
        (Kind::Recv(id), Kind::Recv(other)) => id == other,
        _ => false,
    }
}

/// Whether both set the same variables to the same values.
fn are_same_settings(sets: &Settings<'_>, others: &Settings<'_>) -> bool {
    if sets.len() != others.len() {
        return false;
    }
    for i in 0..sets.len() {
        if sets.get(i) != others.get(i) {
            return false;
        }
    }
    true
}

/// Whether both are the same events, each of which sends or receives.
fn are_same_events(events: &Events, others: &Events) -> bool {
    if events.len() != others.len() {
        return false;
    }
    for k in 0..events.len() {
        if !is_same_kind(events.kind(k), others.kind(k))
            || !are_same_settings(&events.settings(k), &others.settings(k))
        {
            return false;
        }
    }
    true
}

/// Whether both are traces of the same processes with the same events.
fn are_same_traces(traces: &[Trace], others: &[Trace]) -> bool {
    if traces.len() != others.len() {
        return false;
    }
    for p in 0..traces.len() {
        if traces[p].process != others[p].process
            || !are_same_events(&traces[p].events, &others[p].events)
        {
            return false;
        }
    }
    true
}

/// Whether the run that these streams record has a reduction, which consists of what the expected ones record. Nothing
/// if memory was refused.
pub(crate) fn is_reduced_to<R: RandomSource>(
    rt: &R,
    alloc: Global,
    document: &str,
    streams: &[[&str; 2]],
    expected: &[[&str; 2]],
) -> Option<bool> {
    if streams.len() > STREAM_COUNT_LIMIT || expected.len() > STREAM_COUNT_LIMIT {
        return Some(false);
    }
    let Ok(spec) = Spec::read(alloc, document.as_bytes()) else {
        return None;
    };
    let (Ok(traces), Ok(expected)) = (
        traces_of(alloc, &spec, streams),
        traces_of(alloc, &spec, expected),
    ) else {
        return None;
    };
    let Ok(matched) = match_messages(rt, alloc, spec.version(), &traces) else {
        return None;
    };
    let Ok(computation) = Computation::build(alloc, &spec, &traces, matched) else {
        return None;
    };
    match reduced_run(alloc, &spec, &computation) {
        Ok(Some(reduced)) => Some(are_same_traces(&reduced, &expected)),
        Ok(None) => Some(false),
        Err(_) => None,
    }
}
