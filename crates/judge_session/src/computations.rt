//! The computation of a session.
ghost use Rattle.judge_session.specs.Computations.{AreWellFormed};
ghost use Rattle.judge_session.specs.Unanswered.{IsUnanswered, NamesNoCycle};
ghost use Rattle.read_traces.specs.SessionTraces.{AreTraces};
ghost use Rattle.read_traces.specs.Views.{computation_view};
ghost use Rattle.pd_clock.specs.Orders.{places_view};
ghost use Rattle.pd_gather.specs.Views.{traces_view};
ghost use Rattle.pd_report.specs.Views.{refusal_view};
ghost use Rattle.def_format.specs.Reports.{Refused};
ghost use Rattle.def_model.specs.Order.{IsReportedCycle};
ghost use Rattle.def_judgement.specs.Judgements.{IsTracesReport};
ghost use Rattle.def_model.specs.Messages.{HasLawfulMessages, IsMessageList};
ghost use Rattle.pd_spec.specs.Views.{document_view};
ghost use Rattle.std.specs.Prelude.{◌≡◌, IfErr, IfOk, length};

use super::refusal::{of_cycle, of_messages};
use super::unanswered::Unanswered;
use pd_clock::{BuildFault, Computation, Place};
use pd_match::{Matched, match_messages};
use pd_report::Refusal;
use pd_spec::Spec;
use read_traces::Trace;
use std::alloc::{AllocError, Global};
use std::random::RandomSource;

/// The messages of a session's traces, one for each process, or their refusal. They may have any number of events.
///
/// # Errors
/// `Refused` if the messages are refused, and `Memory`.
pub fn messages_of<S: RandomSource>(
    rt: &S,
    alloc: Global,
    spec: &Spec,
    traces: &[Trace],
) -> Result<Matched, Unanswered>
    requires { length traces.now ≡ length (document_view spec.now).names }
    ensures lawful { IfOk result (λ matched. HasLawfulMessages (document_view spec.now).version
        (computation_view traces.now)) }
    ensures messages { IfOk result (λ matched. IsMessageList (computation_view traces.now) matched) }
    ensures refused { IfErr result (IsUnanswered (IsTracesReport (document_view spec.now)
        (traces_view traces.now))) }
    ensures no_cycle { IfErr result (IsUnanswered NamesNoCycle) }
{
    match match_messages(rt, alloc, spec.version(), traces) {
        Ok(matched) => Ok(matched),
        Err(fault) => Err(Unanswered::Refused(of_messages(alloc, spec.names(), fault)?)),
    }
}

/// The computation of a session's traces, and how many messages it has, or the refusal of the messages or of a causal
/// cycle.
///
/// # Errors
/// `Refused` if the messages or a causal cycle are refused, and `Memory`.
pub fn computation_of<'a, S: RandomSource>(
    rt: &S,
    alloc: Global,
    spec: &'a Spec,
    traces: &'a [Trace],
) -> Result<(Computation<'a>, u64), Unanswered>
    requires { AreTraces (document_view spec.now).names traces.now }
    ensures formed { IfOk result (λ formed. AreWellFormed (document_view spec.now) (traces_view traces.now)
        formed.0 formed.1) }
    ensures refused { IfErr result (IsUnanswered (IsTracesReport (document_view spec.now)
        (traces_view traces.now))) }
{
    let matched = messages_of(rt, alloc, spec, traces)?;
    build(alloc, spec, traces, matched)
}

/// The refusal of a causal cycle of a session's traces whose messages are lawful.
///
/// # Errors
/// An allocation was refused.
pub fn cycle_refusal(
    alloc: Global,
    spec: &Spec,
    traces: &[Trace],
    cycle: &[Place],
) -> Result<Refusal, AllocError>
    requires one_each { length traces.now ≡ length (document_view spec.now).names }
    requires lawful { HasLawfulMessages (document_view spec.now).version (computation_view traces.now) }
    requires cycle { IsReportedCycle (computation_view traces.now) (places_view cycle.now) }
    ensures { IfOk result (λ refusal. IsTracesReport (document_view spec.now) (traces_view traces.now)
        (Refused (refusal_view refusal))) }
{
    let refusal = of_cycle(alloc, spec.names(), cycle)?;
    Ok(refusal)
}

/// The computation of traces whose messages are lawful, and how many messages it has, or the refusal of a causal cycle.
///
/// # Errors
/// `Refused` if there is a causal cycle, and `Memory`.
pub fn build<'a>(
    alloc: Global,
    spec: &'a Spec,
    traces: &'a [Trace],
    matched: Matched,
) -> Result<(Computation<'a>, u64), Unanswered>
    requires traces { AreTraces (document_view spec.now).names traces.now }
    requires lawful { HasLawfulMessages (document_view spec.now).version (computation_view traces.now) }
    requires messages { IsMessageList (computation_view traces.now) matched }
    ensures formed { IfOk result (λ formed. AreWellFormed (document_view spec.now) (traces_view traces.now)
        formed.0 formed.1) }
    ensures refused { IfErr result (IsUnanswered (IsTracesReport (document_view spec.now)
        (traces_view traces.now))) }
{
    let messages = matched.messages();
    match Computation::build(alloc, spec, traces, matched) {
        Ok(computation) => Ok((computation, messages)),
        Err(BuildFault::Cycle(cycle)) => {
            let refusal = cycle_refusal(alloc, spec, traces, &cycle)?;
            Err(Unanswered::Refused(refusal))
        }
        Err(BuildFault::Memory) => Err(Unanswered::Memory),
    }
}
