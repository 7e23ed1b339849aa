//! The computation of a session, and what is asked about it.
use crate::definite::are_answers;
use crate::held::are_held;
use crate::skipped::are_skipped;
use def_format::STREAM_COUNT_LIMIT;
use pd_clock::Computation;
use pd_match::match_messages;
use pd_spec::Spec;
use std::alloc::Global;
use std::random::RandomSource;
use std::sync::Wait;
use std::thread::Threads;
use test_samples::traces_of;

/// What is asked about a session.
#[derive(Clone, Copy)]
pub(crate) enum Question<'a> {
    /// Whether runs are skipped for each predicate.
    Skips,
    /// Whether so many levels are held at once for each predicate, on either way of the walk.
    Held(&'a [[u64; 2]]),
    /// Whether the answers for Definitely are the known ones.
    Definite,
}

/// Whether the session answers the question as it should. Nothing if memory was refused before. If it was refused in a
/// call that is made again, `again` is set.
pub(crate) fn is_right<T: RandomSource + Threads + Wait + Sync>(
    rt: &T,
    alloc: Global,
    document: &str,
    streams: &[[&str; 2]],
    question: Question<'_>,
    again: &mut bool,
) -> Option<bool> {
    if streams.len() > STREAM_COUNT_LIMIT {
        return Some(false);
    }
    let Ok(spec) = Spec::read(alloc, document.as_bytes()) else {
        return None;
    };
    let Ok(traces) = traces_of(alloc, &spec, streams) else {
        return None;
    };
    let Ok(matched) = match_messages(rt, alloc, spec.version(), &traces) else {
        return None;
    };
    let Ok(computation) = Computation::build(alloc, &spec, &traces, matched) else {
        return None;
    };
    if computation.processes() < 2 {
        return Some(false);
    }
    match question {
        Question::Skips => are_skipped(rt, alloc, &computation, &spec),
        Question::Held(held) => are_held(rt, alloc, &computation, &spec, held).ok(),
        Question::Definite => are_answers(rt, alloc, &computation, &spec, again),
    }
}
