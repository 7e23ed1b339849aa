//! The computation of a reduction.
ghost use Rattle.def_model.specs.Messages.{IsMessageList};
ghost use Rattle.pd_clock.specs.Computations.{recorded_view};
ghost use Rattle.pd_spec.specs.Views.{document_view};
ghost use Rattle.read_traces.specs.SessionTraces.{AreTraces};
ghost use Rattle.read_traces.specs.Views.{computation_view};
ghost use Rattle.std.specs.Prelude.{◌≡◌, IfOk, IfSome};

use def_format::Version;
use pd_clock::{BuildFault, Computation};
use pd_match::{MatchFault, Matched, match_messages};
use pd_spec::Spec;
use read_traces::Trace;
use std::alloc::{AllocError, Global};
use std::random::RandomSource;

/// The computation of traces with these messages, or `None` if an event happened before itself.
///
/// # Errors
/// An allocation was refused.
fn matched_computation<'a>(
    alloc: Global,
    spec: &'a Spec,
    traces: &'a [Trace],
    matched: Matched,
) -> Result<Option<Computation<'a>>, AllocError>
    requires traces { AreTraces (document_view spec.now).names traces.now }
    requires messages { IsMessageList (computation_view traces.now) matched }
    ensures { IfOk result (λ found. IfSome found (λ computation.
        computation ≡ recorded_view (document_view spec.now).initial traces.now)) }
{
    match Computation::build(alloc, spec, traces, matched) {
        Ok(computation) => Ok(Some(computation)),
        Err(BuildFault::Cycle(_)) => Ok(None),
        Err(BuildFault::Memory) => Err(AllocError),
    }
}

/// The computation of traces in which a message may have several receivers, or `None` if the messages are at fault, or
/// an event happened before itself. The traces of a reduction have one. It takes the time and the memory that matching
/// a session's traces and computing their clocks take.
///
/// # Errors
/// An allocation was refused.
pub fn traces_computation<'a, R: RandomSource>(
    rt: &R,
    alloc: Global,
    spec: &'a Spec,
    traces: &'a [Trace],
) -> Result<Option<Computation<'a>>, AllocError>
    requires { AreTraces (document_view spec.now).names traces.now }
    ensures { IfOk result (λ found. IfSome found (λ computation.
        computation ≡ recorded_view (document_view spec.now).initial traces.now)) }
{
    match match_messages(rt, alloc, Version::Two, traces) {
        Ok(matched) => matched_computation(alloc, spec, traces, matched),
        Err(MatchFault::Memory) => Err(AllocError),
        Err(_) => Ok(None),
    }
}
