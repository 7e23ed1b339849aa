//! The reduced session of an order.
ghost use Rattle.judge_reduction.specs.ReadSessions.{IsMade, IsSeenPart};
ghost use Rattle.judge_reduction.specs.ReducedSessions.{ReducesRuns};
ghost use Rattle.pd_spec.specs.Views.{document_view};
ghost use Rattle.std.specs.Prelude.{IfOk, IfSome};

use super::checks::{checked_counts, made_document};
use super::documents::session_document;
use super::streams::{MadeStreams, session_streams};
use def_orders::one_part;
use judge_orders::{Order, part_of, seen_places};
use pd_spec::{Options, Spec};
use std::alloc::{AllocError, Global};
use std::random::RandomSource;
use std::sync::Wait;
use std::thread::Threads;

/// A session that has the answers of runs of one order.
#[derive(Drop)]
pub struct ReducedSession {
    /// The text of its document.
    pub document: Vec<u8>,
    /// The text of a stream for each of its processes, in the document's order.
    pub streams: Vec<Vec<u8>>,
    /// Which processes of a run it has, counted from 0, ascending.
    pub places: Vec<usize>,
    /// Of each of its processes the numbers of the events that stand for kept ones of a run, counted from 1. No clause
    /// speaks of them.
    pub numbers: Vec<Vec<u64>>,
    /// How many events its processes have together.
    pub events: u64,
    /// How many of its messages are received.
    pub messages: u64,
}

/// The processes of which variables are seen, and what the order says of these alone, or `None` if it has no process.
///
/// # Errors
/// An allocation was refused.
fn seen_part(alloc: Global, order: &Order) -> Result<Option<(Vec<usize>, Order)>, AllocError>
    ensures { IfOk result (λ found. IfSome found (λ parts. IsSeenPart order.now parts.0.items parts.1)) }
{
    if order.named().len() == 0 {
        return Ok(None);
    }
    let places = seen_places(alloc, order)?;
    let part = part_of(alloc, order, &places)?;
    Ok(Some((places, part)))
}

/// The session of this order that has the processes at these places of a document, or `None` if it wouldn't fit a
/// session's limits.
///
/// # Errors
/// An allocation was refused.
fn part_session<S: RandomSource + Threads + Wait + Sync>(
    rt: &S,
    alloc: Global,
    spec: &Spec,
    document: &[u8],
    options: &Options<'_>,
    places: Vec<usize>,
    part: &Order,
) -> Result<Option<ReducedSession>, AllocError>
    ensures { IfOk result (λ found. IfSome found (IsMade (document_view spec.now) places.items part.now)) }
{
    let Some(text) = session_document(alloc, document, options, &places)? else {
        return Ok(None);
    };
    let Some(made) = made_document(alloc, spec, &places, &text)? else {
        return Ok(None);
    };
    let Some(MadeStreams { texts, numbers }) = session_streams(alloc, made.names(), part)? else {
        return Ok(None);
    };
    let Some(counts) = checked_counts(rt, alloc, &made, part, &texts)? else {
        return Ok(None);
    };
    Ok(Some(ReducedSession {
        document: text,
        streams: texts,
        places,
        numbers,
        events: counts.events,
        messages: counts.messages,
    }))
}

/// A session that has the answers of each run of this document and this order, or `None` if it wouldn't fit a session's
/// limits: a process would have more than 10,000 events, its receipts among them, or the document more than 262,144
/// bytes. The document's bytes are those of the document with what is asked in place of what it has, so the session has
/// that too; whether predicates are answered beyond the width is no part of it.
///
/// The session has the processes of which predicates name variables, in the document's order, or the first process if
/// they name none. Each has its kept events, each of which sets the variables that it leaves with another value, of
/// those that predicates name. A kept event sends a message if another process receives it. Before it come receipts,
/// each an event of its own: of the message of each latest kept event of another process that happened before it, by
/// whatever processes that order came, unless the message was received earlier, or another kept event lies between. If
/// it sends nothing itself, it is the last of these receipts. So a message may have several receivers, and the document
/// has version 2. The id of a message is the name of the process and the number of the kept event, as `a-12`.
///
/// What is made is read back, and given only if it has these processes of the document, with their variables and
/// initial values, and its predicates, and if its order is what the run's order says of these processes.
///
/// It takes time for the kept events, times the square of the number of these processes and times their process's
/// variables that are seen, and the time of reading a session. It has memory for the texts and for the session that is
/// read.
///
/// # Errors
/// An allocation was refused.
pub fn reduced_session<S: RandomSource + Threads + Wait + Sync>(
    rt: &S,
    alloc: Global,
    spec: &Spec,
    document: &[u8],
    options: &Options<'_>,
    order: &Order,
) -> Result<Option<ReducedSession>, AllocError>
    ensures { IfOk result (λ found. IfSome found (ReducesRuns (document_view spec.now) order.now)) }
{
    one_part();
    let Some((places, part)) = seen_part(alloc, order)? else {
        return Ok(None);
    };
    let found = part_session(rt, alloc, spec, document, options, places, &part)?;
    Ok(found)
}
