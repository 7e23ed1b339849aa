//! The computation of a session, and what workers are asked about it.
use crate::gates::is_passed_first;
use crate::levels::are_levels;
use crate::workers::are_known;
use pd_clock::Computation;
use pd_level::Gate;
use pd_match::match_messages;
use pd_spec::Spec;
use std::alloc::Global;
use std::random::RandomSource;
use std::sync::Wait;
use std::thread::Threads;
use std::time::Clock;
use test_samples::traces_of;

/// What is asked about a session.
#[derive(Clone, Copy)]
pub(crate) enum Question<'a> {
    /// Whether this many workers give the levels that a single thread gives, and marks are those of the predicate.
    Levels(&'a [u64]),
    /// Whether this many workers give the known answers, and all of several expand blocks.
    Workers(&'a [u64]),
    /// Whether a gate is passed before its block is expanded.
    Gates,
}

/// Whether the session answers the question as it should. Nothing if memory was refused before. If it was refused in a
/// call that is made again, `again` is set.
pub(crate) fn is_right<K: RandomSource, T: Threads + Wait + Clock + Sync, G: Gate + Sync>(
    rt: &T,
    keys: &K,
    gate: &G,
    alloc: Global,
    document: &str,
    streams: &[[&str; 2]],
    question: Question<'_>,
    again: &mut bool,
) -> Option<bool> {
    if streams.len() > 8 {
        return Some(false);
    }
    let Ok(spec) = Spec::read(alloc, document.as_bytes()) else {
        return None;
    };
    let Ok(traces) = traces_of(alloc, &spec, streams) else {
        return None;
    };
    let Ok(matched) = match_messages(keys, alloc, spec.version(), &traces) else {
        return None;
    };
    let Ok(computation) = Computation::build(alloc, &spec, &traces, matched) else {
        return None;
    };
    match question {
        Question::Levels(workers) => {
            let Some(aside) = spec.predicates().get(3) else {
                return Some(false);
            };
            are_levels(rt, alloc, &computation, &aside.pred, workers, gate, again).ok()
        }
        Question::Workers(workers) => are_known(rt, alloc, &computation, &spec, workers),
        Question::Gates => is_passed_first(rt, alloc, &computation).ok(),
    }
}

/// Whether the session answers the question as it should, if no memory is refused.
pub(crate) fn is_right_with_memory<T: RandomSource + Threads + Wait + Clock + Sync, G: Gate + Sync>(
    rt: &T,
    gate: &G,
    alloc: Global,
    document: &str,
    streams: &[[&str; 2]],
    question: Question<'_>,
) -> bool {
    is_right(rt, rt, gate, alloc, document, streams, question, &mut false) == Some(true)
}
