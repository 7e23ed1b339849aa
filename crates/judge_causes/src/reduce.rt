//! Traces in which receipts that aren't kept are local events.
ghost use Rattle.judge_causes.specs.Reduced.{event_if, is_listed, kind_if, reduced_from, reduced_traces};
ghost use Rattle.def_model.specs.Events.{Event};
ghost use Rattle.pd_clock.specs.Orders.{places_view};
ghost use Rattle.read_traces.specs.Columns.{seen_kind_view};
ghost use Rattle.std.specs.Prelude.{◌≡◌, ◌<◌, ◌++◌, [], ◌∷◌, IfOk, OnErr, OnOk, Some, length, slice_get};

use super::marks::marks_of;
use pd_clock::Place;
use read_traces::{Events, Kind, Settings, Trace};
use std::alloc::{AllocError, Global};

/// The kind of an event; a receipt that isn't kept is local.
fn kind_of(kind: Kind<'_>, is_kept: bool) -> Kind<'_>
    ensures { seen_kind_view result ≡ kind_if is_kept (seen_kind_view kind.entry) }
{
    match kind {
        Kind::Local => Kind::Local,
        Kind::Send(id) => Kind::Send(id),
        Kind::Recv(id) => { if is_kept { Kind::Recv(id) } else { Kind::Local } }
    }
}

/// Puts what an event sets in the place of what the list had.
fn copy_settings(list: &mut Vec<(usize, i64)>, settings: &Settings<'_>) -> Result<(), AllocError>
    ensures { OnOk result (list.new.items ≡ settings.now) }
{
    list.clear();
    for i in 0..settings.len() {
        list.push(settings.get(i))?;
    }
    Ok(())
}

/// Adds the event at this index, as a local one if it is a receipt that isn't kept. The list takes its settings.
fn push_event(
    made: &mut Events,
    events: &Events,
    k: usize,
    is_kept: bool,
    list: &mut Vec<(usize, i64)>,
) -> Result<(), AllocError>
    requires { k < length events.now }
    ensures { OnOk result ((event : Event) → slice_get events.now k ≡ Some event
        → made.new ≡ made.old ++ event_if is_kept event ∷ []) }
{
    copy_settings(list, &events.settings(k))?;
    made.push_parts(kind_of(events.kind(k), is_kept), list)
}

/// The events of a process, of whose receipts these are kept and the others local events.
fn reduced_events(
    alloc: Global,
    events: &Events,
    process: usize,
    kept: &[Place],
) -> Result<Events, AllocError>
    ensures { IfOk result (λ made. made ≡ reduced_from (is_listed (places_view kept.now)) process 0 events.now) }
{
    let marks = marks_of(alloc, kept, process, events.len())?;
    let mut made = Events::new(alloc);
    let mut list = Vec::new(alloc);
    for k in 0..events.len() {
        push_event(&mut made, events, k, marks[k], &mut list)?;
    }
    Ok(made)
}

/// The traces of a session, of whose receipts these are kept and the others local events.
///
/// # Errors
/// An allocation was refused.
pub(crate) fn reduced_of(
    alloc: Global,
    traces: &[Trace],
    kept: &[Place],
) -> Result<Vec<Trace>, AllocError>
    ensures { IfOk result (λ made. made.items ≡ reduced_traces (is_listed (places_view kept.now)) 0 traces.now) }
{
    let mut made = Vec::with_capacity(alloc, traces.len())?;
    for p in 0..traces.len() {
        made.push(Trace {
            process: traces[p].process,
            join_line: traces[p].join_line,
            events: reduced_events(alloc, &traces[p].events, p, kept)?,
        })?;
    }
    Ok(made)
}
