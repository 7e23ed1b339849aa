//! How many events of a process come before all that an event happened before.
ghost use Rattle.wide_gates.specs.Highs.{HasNoneAfter, IsHigh};
ghost use Rattle.pd_match.specs.Views.{place_view};
ghost use Rattle.def_model.specs.Events.{IsEvent, event_count, place};
ghost use Rattle.def_model.specs.Order.{HappenedBefore};
ghost use Rattle.std.specs.Prelude.{◌≡◌, ◌+◌, ◌<◌, ◌≤◌, ◌↔◌, IsTrue, ℕ, length, slice_index_or};

use pd_clock::{Computation, Place};

/// Whether the event happened before the one after the first `high` events of process `q`, or there is none.
pub(crate) fn is_high(computation: &Computation<'_>, e: Place, q: usize, high: u64) -> bool
    requires event { IsEvent computation.now.events (place_view e) }
    requires within { q < length computation.now.events }
    requires few { high ≤ event_count computation.now.events q }
    ensures { IsTrue result → high < event_count computation.now.events q
        → HappenedBefore computation.now.events (place_view e) (place q (high + 1)) }
{
    if high >= computation.events(q) {
        return true;
    }
    let next = Place {
        process: q,
        number: high + 1,
    };
    computation.before(e, next)
}

/// How many events of process `q` come before the first of them that the event happened before. It did so before none
/// of the first `start`.
pub(crate) fn high_from(computation: &Computation<'_>, place: Place, q: usize, start: u64) -> u64
    requires event { IsEvent computation.now.events (place_view place) }
    requires within { q < length computation.now.events }
    requires none { HasNoneAfter computation.now.events (place_view place) q start }
    ensures { IsHigh computation.now.events (place_view place) q result }
{
    let events = computation.events(q);
    for high in start..events {
        let next = Place {
            process: q,
            number: high + 1,
        };
        if computation.before(place, next) {
            return high;
        }
    }
    events
}

/// How many events of process `q` at least come before all that the event happened before, if so many come before all
/// that another event did.
pub(crate) fn start_of(
    _computation: &Computation<'_>,
    last: Place,
    place: Place,
    _q: usize,
    high: u64,
) -> u64
    requires last { IsEvent _computation.now.events (place_view last) }
    requires none { HasNoneAfter _computation.now.events (place_view last) _q high }
    ensures { HasNoneAfter _computation.now.events (place_view place) _q result }
{
    if last.process == place.process && last.number <= place.number {
        high
    } else {
        0
    }
}
