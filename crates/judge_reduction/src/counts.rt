//! How many events and messages a session of an order has.
ghost use Rattle.judge_reduction.specs.ReadSessions.{AreCountsOf, HaveOrder};
ghost use Rattle.pd_gather.specs.Views.{traces_view};
ghost use Rattle.pd_spec.specs.Views.{document_view};
ghost use Rattle.read_traces.specs.SessionTraces.{AreTraces};
ghost use Rattle.std.specs.Prelude.{◌≡◌, IfOk, IfSome, length};

use judge_orders::{Order, order_of};
use judge_session::{Unanswered, computation_of};
use pd_clock::Computation;
use pd_spec::Spec;
use read_traces::Trace;
use std::alloc::{AllocError, Global};
use std::random::RandomSource;

/// How much a session has.
#[derive(Clone, Copy)]
pub(crate) struct Counts {
    /// How many events its processes have together.
    pub(crate) events: u64,
    /// How many of its messages are received.
    pub(crate) messages: u64,
}

/// How many events and messages a session of this document has whose computation this is, with this many messages, or
/// `None` if it isn't of this order.
///
/// # Errors
/// An allocation was refused.
fn counts_of_computation(
    alloc: Global,
    made: &Spec,
    computation: &Computation<'_>,
    messages: u64,
    order: &Order,
) -> Result<Option<Counts>, AllocError>
    requires names { length computation.now.events ≡ length (document_view made.now).names }
    ensures { IfOk result (λ found. IfSome found (AreCountsOf computation.now messages order.now)) }
{
    let own = order_of(alloc, made, computation)?;
    if !order.is_same(&own) {
        return Ok(None);
    }
    let events = computation.total();
    Ok(Some(Counts { events, messages }))
}

/// How many events and messages a session of this document with these traces has, or `None` if it isn't of this order.
///
/// # Errors
/// `Refused` if the messages or a causal cycle are refused, and `Memory`.
pub(crate) fn counts_of<S: RandomSource>(
    rt: &S,
    alloc: Global,
    made: &Spec,
    traces: &[Trace],
    order: &Order,
) -> Result<Option<Counts>, Unanswered>
    requires { AreTraces (document_view made.now).names traces.now }
    ensures { IfOk result (λ found. IfSome found (HaveOrder (document_view made.now) (traces_view traces.now)
        order.now)) }
{
    let (computation, messages) = computation_of(rt, alloc, made, traces)?;
    let found = counts_of_computation(alloc, made, &computation, messages, order)?;
    Ok(found)
}
