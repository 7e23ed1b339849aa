//! What an event has in its past.
ghost use Rattle.wide_conjunctions.specs.Intervals.{HasAll, IsMissing};
ghost use Rattle.pd_match.specs.Views.{place_view};
ghost use Rattle.def_model.specs.Events.{IsEvent};
ghost use Rattle.std.specs.Prelude.{◌≡◌, IfNone, IfSome, length};

use pd_clock::{Computation, Place};

/// The least process of which fewer events are this one or happened before it than the count says.
pub(crate) fn first_missing(
    computation: &Computation<'_>,
    counts: &[u64],
    place: Place,
) -> Option<usize>
    requires event { IsEvent computation.now.events (place_view place) }
    requires one_each { length counts.now ≡ length computation.now.events }
    ensures some { IfSome result (IsMissing computation.now.events counts.now (place_view place)) }
    ensures none { IfNone result (HasAll computation.now.events counts.now (place_view place)) }
{
    for p in 0..counts.len() {
        if computation.clock(place, p) < counts[p] {
            return Some(p);
        }
    }
    None
}
