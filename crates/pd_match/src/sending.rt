//! The first pass, over the sends.
ghost use Rattle.read_traces.specs.Views.{computation_view};
ghost use Rattle.pd_match.specs.Noted.{HasAll, HasBefore, event_place, place_noted};
ghost use Rattle.pd_match.specs.Views.{match_fault_view};
ghost use Rattle.def_model.specs.Events.{Send, event_count};
ghost use Rattle.def_model.specs.Messages.{IsReported, Version};
ghost use Rattle.std.specs.Prelude.{◌<◌, IfErr, IfOk, IfSome, OnOk, length, suc};

use super::id::Id;
use super::kinds::kind_of;
use super::noting::note;
use super::{MatchFault, Place};
use indexmap::IndexMap;
use read_traces::{Kind, Trace};
use std::alloc::Global;
use std::hash::BuildHasher;

/// Notes the event at index `n` of process `p`, if it is a send.
fn note_send<'a, S: BuildHasher>(
    traces: &'a [Trace],
    p: usize,
    n: usize,
    sends: &mut IndexMap<Id<'a>, Place, S>,
) -> Result<(), MatchFault>
    requires process { p < length traces.now }
    requires event { n < event_count (computation_view traces.now) p }
    requires before { HasBefore Send (computation_view traces.now) (event_place p n) (place_noted sends.old) }
    ensures noted { OnOk result (HasBefore Send (computation_view traces.now) (event_place p (suc n))
        (place_noted sends.new)) }
    ensures fault { IfErr result (λ reported.
        (version : Version) → IfSome (match_fault_view reported) (IsReported version (computation_view traces.now))) }
{
    if let Kind::Send(id) = kind_of(traces, p, n) {
        let here = Place::of_event(p, n);
        if note(sends, id, here)? {
            return Err(MatchFault::SendTwice(here));
        }
    }
    Ok(())
}

/// Notes the sends of process `p`.
fn note_sends<'a, S: BuildHasher>(
    traces: &'a [Trace],
    p: usize,
    sends: &mut IndexMap<Id<'a>, Place, S>,
) -> Result<(), MatchFault>
    requires process { p < length traces.now }
    requires before { HasBefore Send (computation_view traces.now) (event_place p 0) (place_noted sends.old) }
    ensures noted { OnOk result (HasBefore Send (computation_view traces.now) (event_place (suc p) 0)
        (place_noted sends.new)) }
    ensures fault { IfErr result (λ reported.
        (version : Version) → IfSome (match_fault_view reported) (IsReported version (computation_view traces.now))) }
{
    for n in 0..traces[p].events.len() {
        note_send(traces, p, n, sends)?;
    }
    Ok(())
}

/// The place of each send, by its id.
///
/// # Errors
/// The first send whose id is sent at an earlier place, or `Memory`.
pub(crate) fn sends_of<'a, S: BuildHasher + Drop>(
    alloc: Global,
    traces: &'a [Trace],
    hasher: S,
) -> Result<IndexMap<Id<'a>, Place, S>, MatchFault>
    ensures noted { IfOk result (λ sends. HasAll Send (computation_view traces.now) (place_noted sends)) }
    ensures fault { IfErr result (λ reported.
        (version : Version) → IfSome (match_fault_view reported) (IsReported version (computation_view traces.now))) }
{
    let mut sends = IndexMap::with_hasher(alloc, hasher);
    for p in 0..traces.len() {
        note_sends(traces, p, &mut sends)?;
    }
    Ok(sends)
}
