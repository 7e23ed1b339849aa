//! The order of a session's run in both ways.
use def_format::STREAM_COUNT_LIMIT;
use judge_orders::{KeptRun, order_of, order_of_traces};
use pd_clock::{BuildFault, Computation};
use pd_match::match_messages;
use pd_spec::Spec;
use std::alloc::Global;
use std::random::RandomSource;
use test_samples::traces_of;

/// Whether these are the expected numbers.
fn are_numbers(numbers: &[Vec<u64>], expected: &[&[u64]]) -> bool {
    if numbers.len() != expected.len() {
        return false;
    }
    for p in 0..numbers.len() {
        if numbers[p].as_slice() != expected[p] {
            return false;
        }
    }
    true
}

/// Whether the events with the expected numbers are kept of the run that these streams record, and its order by its
/// traces is the one by its computation. Nothing if memory was refused.
pub(crate) fn is_found<R: RandomSource>(
    rt: &R,
    alloc: Global,
    document: &str,
    streams: &[[&str; 2]],
    expected: &[&[u64]],
) -> Option<bool> {
    if streams.len() > STREAM_COUNT_LIMIT {
        return Some(false);
    }
    let Ok(spec) = Spec::read(alloc, document.as_bytes()) else {
        return None;
    };
    let Ok(traces) = traces_of(alloc, &spec, streams) else {
        return None;
    };
    let Ok(matched) = match_messages(rt, alloc, spec.version(), &traces) else {
        return None;
    };
    let Ok(found) = order_of_traces(alloc, &spec, &traces, &matched) else {
        return None;
    };
    let Some(KeptRun { order, numbers }) = found else {
        return Some(false);
    };
    let Ok(computation) = Computation::build(alloc, &spec, &traces, matched) else {
        return None;
    };
    match order_of(alloc, &spec, &computation) {
        Ok(other) => Some(order.is_same(&other) && are_numbers(&numbers, expected)),
        Err(_) => None,
    }
}

/// Whether a causal cycle of this many places is found. Nothing if memory was refused.
pub(crate) fn cycle_found<R: RandomSource>(
    rt: &R,
    alloc: Global,
    document: &str,
    streams: &[[&str; 2]],
    places: usize,
) -> Option<bool> {
    if streams.len() > STREAM_COUNT_LIMIT {
        return Some(false);
    }
    let Ok(spec) = Spec::read(alloc, document.as_bytes()) else {
        return None;
    };
    let Ok(traces) = traces_of(alloc, &spec, streams) else {
        return None;
    };
    let Ok(matched) = match_messages(rt, alloc, spec.version(), &traces) else {
        return None;
    };
    match order_of_traces(alloc, &spec, &traces, &matched) {
        Ok(_) => Some(false),
        Err(BuildFault::Cycle(cycle)) => Some(cycle.len() == places),
        Err(BuildFault::Memory) => None,
    }
}
