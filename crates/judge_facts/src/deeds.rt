//! What an event did.
ghost use Rattle.def_model.specs.Cuts.{Includes};
ghost use Rattle.def_model.specs.Events.{kind_at};
ghost use Rattle.pd_match.specs.Views.{place_view};
ghost use Rattle.read_traces.specs.Columns.{seen_kind_view};
ghost use Rattle.read_traces.specs.Views.{computation_view};
ghost use Rattle.std.specs.Prelude.{◌≡◌, ◌↔◌, IsTrue, length, option_map, slice_get, slice_index};

use pd_clock::Place;
use read_traces::{Events, Kind, Trace};

/// The kind of the event at this index, if there is one.
fn kind_in(events: &Events, index: u64) -> Option<Kind<'_>>
    ensures { option_map seen_kind_view result
        ≡ option_map (λ event. event.kind) (slice_get events.now index) }
{
    if index < events.len() as u64 {
        return Some(events.kind(index as usize));
    }
    None
}

/// What the event at this place did: whether it was local, or which message it sent or received. There is nothing if
/// no event stands there.
pub fn kind_at(traces: &[Trace], place: Place) -> Option<Kind<'_>>
    ensures { option_map seen_kind_view result ≡ kind_at (computation_view traces.now) (place_view place) }
{
    let trace = traces.get(place.process)?;
    let index = place.number.checked_sub(1)?;
    kind_in(&trace.events, index)
}

/// Whether the event at this place is among those of a cut with these counts.
pub fn has_event(counts: &[u64], place: Place) -> bool
    ensures { IsTrue result ↔ Includes counts.now (place_view place) }
{
    match counts.get(place.process) {
        Some(count) => 1 <= place.number && place.number <= *count,
        None => false,
    }
}
