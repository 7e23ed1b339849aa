//! Explains the answers of a session, by what was read of it.
ghost use Rattle.app_answers.specs.Sessions.{IsJudged};
ghost use Rattle.pd_spec.specs.Views.{document_view};
ghost use Rattle.read_traces.specs.SessionTraces.{AreTraces};

use app_answers::{Session, explain_known, warn};
use app_explain::{Judged, Seen, SeenStream, explain_answers, joined_name};
use app_text::{Source, Text};
use judge_draw::read_session;
use judge_session::{Inquiry, computation_of};
use pd_report::Answer;
use pd_spec::{Options, Spec};
use read_notes::EventNotes;
use read_traces::Trace;
use std::alloc::{AllocError, Global};
use std::random::RandomSource;
use std::sync::Wait;
use std::thread::Threads;

/// The bytes that were read of these streams; nothing, if those of one aren't known.
fn bytes_of<'a>(
    alloc: Global,
    streams: &[SeenStream<'a>],
) -> Result<Option<Vec<&'a [u8]>>, AllocError> {
    let mut all = Vec::new(alloc);
    for stream in streams {
        match stream.source {
            Some(source) => all.push(source.bytes)?,
            None => return Ok(None),
        }
    }
    Ok(Some(all))
}

/// What was read of the stream of the process of this name, if it is known.
fn source_of<'a>(
    alloc: Global,
    streams: &[SeenStream<'a>],
    process: &str,
) -> Result<Option<Source<'a>>, AllocError> {
    for stream in streams {
        if let Some(source) = stream.source {
            if let Some(name) = joined_name(alloc, source.bytes)? {
                if name.as_str() == process {
                    return Ok(Some(source));
                }
            }
        }
    }
    Ok(None)
}

/// What was read of the stream of each process, in the order of the processes, if it is known.
fn sources_of<'a>(
    alloc: Global,
    spec: &Spec,
    streams: &[SeenStream<'a>],
) -> Result<Vec<Option<Source<'a>>>, AllocError> {
    let names = spec.names();
    let mut sources = Vec::new(alloc);
    for p in 0..names.processes() {
        sources.push(source_of(alloc, streams, names.name(p))?)?;
    }
    Ok(sources)
}

/// Explains the answers of a session by what it says.
fn put_session<R: RandomSource + Threads + Wait + Sync>(
    out: &mut Text,
    rt: &R,
    alloc: Global,
    session: &Session<'_, '_>,
    judged: Judged,
    answers: &[Answer],
)
    requires { IsJudged session.now }
{
    explain_known(out, rt, alloc, session, answers);
    explain_answers(out, answers, judged);
    warn(out, session);
}

/// The same of these traces. If they make no computation, what is unknown is said.
fn put_traces<R: RandomSource + Threads + Wait + Sync>(
    out: &mut Text,
    rt: &R,
    alloc: Global,
    spec: &Spec,
    traces: &[Trace],
    sources: &[Option<Source<'_>>],
    notes: Option<&EventNotes>,
    judged: Judged,
    answers: &[Answer],
)
    requires { AreTraces (document_view spec.now).names traces.now }
{
    let Ok(formed) = computation_of(rt, alloc, spec, traces) else {
        explain_answers(out, answers, judged);
        return;
    };
    let session = Session {
        spec,
        traces,
        computation: &formed.0,
        sources,
        notes,
    };
    put_session(out, rt, alloc, &session, judged, answers);
}

/// The same of the session of this document and these streams. If it can't be read again, what is unknown is said.
fn put_read<T: RandomSource + Threads + Wait + Sync>(
    out: &mut Text,
    rt: &T,
    alloc: Global,
    seen: Seen<'_>,
    inquiry: Inquiry<'_, '_, '_>,
    judged: Judged,
    answers: &[Answer],
) {
    let Some(Some(streams)) = out.take_made(bytes_of(alloc, seen.streams)) else {
        explain_answers(out, answers, judged);
        return;
    };
    let Ok(read) = read_session(rt, alloc, inquiry, streams) else {
        explain_answers(out, answers, judged);
        return;
    };
    let Some(sources) = out.take_made(sources_of(alloc, &read.spec, seen.streams)) else {
        return;
    };
    put_traces(
        out,
        rt,
        alloc,
        &read.spec,
        &read.traces,
        &sources,
        seen.notes,
        judged,
        answers,
    );
}

/// Explains the answers of a session that was judged: what can happen, where and why, what can't, and what is unknown;
/// and what may be green by accident. The session is read again from the bytes that were read of it. If an answer is
/// unknown that was asked beyond the width, the reduction of its run is judged; else nothing is judged again.
pub(crate) fn put_answers<T: RandomSource + Threads + Wait + Sync>(
    out: &mut Text,
    rt: &T,
    alloc: Global,
    seen: Seen<'_>,
    judged: Judged,
    answers: &[Answer],
) {
    let Some(source) = seen.document else {
        explain_answers(out, answers, judged);
        return;
    };
    let document = source.bytes;
    match seen.options {
        Some(options) => {
            let inquiry = Inquiry { document, options };
            put_read(out, rt, alloc, seen, inquiry, judged, answers);
        }
        None => {
            let options = Options::none(alloc);
            let inquiry = Inquiry {
                document,
                options: &options,
            };
            put_read(out, rt, alloc, seen, inquiry, judged, answers);
        }
    }
}
