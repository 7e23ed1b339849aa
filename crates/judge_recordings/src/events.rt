//! How many events a run has.
ghost use Rattle.def_model.specs.Cuts.{total};
ghost use Rattle.read_traces.specs.Views.{computation_view};
ghost use Rattle.std.specs.Prelude.{◌≡◌, IfSome};

use read_traces::Trace;

/// How many events these traces have together, if the number fits.
pub(crate) fn event_total(traces: &[Trace]) -> Option<u64>
    ensures { IfSome result (λ events. events ≡ total (computation_view traces.now)) }
{
    let mut events = 0u64;
    for process in traces {
        events = events.checked_add(process.events.len() as u64)?;
    }
    Some(events)
}
