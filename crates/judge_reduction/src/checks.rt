//! Whether texts are a session of an order.
ghost use Rattle.judge_reduction.specs.ReadSessions.{AreMadeStreams, IsMadeDocument};
ghost use Rattle.judge_reduction.specs.ReducedSessions.{texts_view};
ghost use Rattle.pd_spec.specs.Views.{document_view};
ghost use Rattle.std.specs.Prelude.{IfOk, IfSome};

use super::counts::{Counts, counts_of};
use super::readings::made_traces;
use super::same_documents::are_alike;
use judge_orders::Order;
use judge_session::{Unanswered, read_document};
use pd_spec::Spec;
use std::alloc::{AllocError, Global};
use std::random::RandomSource;
use std::sync::Wait;
use std::thread::Threads;

/// The document of these bytes, or `None` if they are refused, or it hasn't the processes at these places of the other
/// one, with their variables and initial values, and its predicates.
///
/// # Errors
/// An allocation was refused.
pub(crate) fn made_document(
    alloc: Global,
    spec: &Spec,
    places: &[usize],
    document: &[u8],
) -> Result<Option<Spec>, AllocError>
    ensures { IfOk result (λ found. IfSome found (λ made. IsMadeDocument (document_view spec.now) places.now
        document.now (document_view made))) }
{
    let made = match read_document(alloc, document) {
        Ok(made) => made,
        Err(Unanswered::Refused(_)) => return Ok(None),
        Err(Unanswered::Memory) => return Err(AllocError),
    };
    if !are_alike(places, &made, spec) {
        return Ok(None);
    }
    Ok(Some(made))
}

/// How many events and messages the session of this document and these streams has, or `None` if it isn't one of this
/// order.
///
/// # Errors
/// `Refused` if the session is refused, and `Memory`.
fn made_counts<S: RandomSource + Threads + Wait + Sync>(
    rt: &S,
    alloc: Global,
    made: &Spec,
    order: &Order,
    streams: &[Vec<u8>],
) -> Result<Option<Counts>, Unanswered>
    ensures { IfOk result (λ found. IfSome found (AreMadeStreams (document_view made.now) order.now
        (texts_view streams.now))) }
{
    let traces = made_traces(rt, alloc, made, streams)?;
    let found = counts_of(rt, alloc, made, &traces, order)?;
    Ok(found)
}

/// How many events and messages the session of this document and these streams has, or `None` if they are refused, or
/// are no session of this order.
///
/// It takes the time and the memory that reading a session takes, and that of its order.
///
/// # Errors
/// An allocation was refused.
pub(crate) fn checked_counts<S: RandomSource + Threads + Wait + Sync>(
    rt: &S,
    alloc: Global,
    made: &Spec,
    order: &Order,
    streams: &[Vec<u8>],
) -> Result<Option<Counts>, AllocError>
    ensures { IfOk result (λ found. IfSome found (AreMadeStreams (document_view made.now) order.now
        (texts_view streams.now))) }
{
    match made_counts(rt, alloc, made, order, streams) {
        Ok(found) => Ok(found),
        Err(unanswered) => match unanswered {
            Unanswered::Refused(_) => Ok(None),
            Unanswered::Memory => Err(AllocError),
        },
    }
}
