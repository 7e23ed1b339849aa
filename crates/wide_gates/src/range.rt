//! Which counts a process may have around an event.
ghost use Rattle.def_format.specs.Limits.{event_limit};
ghost use Rattle.def_model.specs.Events.{IsEvent, event_count};
ghost use Rattle.wide_gates.specs.Highs.{HasNoneAfter, IsHigh};
ghost use Rattle.wide_gates.specs.Ranges.{HasRange, IsRange};
ghost use Rattle.wide_gates.specs.Spots.{event_of};
ghost use Rattle.std.specs.Prelude.{◌≡◌, ◌≢◌, ◌<◌, ◌≤◌, IsTrue, length};

use super::high::{high_from, is_high};
use super::spot::Spot;
use pd_clock::Computation;

/// The least and the greatest count, in as little memory as they take.
#[derive(Clone, Copy)]
pub(crate) struct Range {
    pub(crate) low: u16,
    pub(crate) high: u16,
}

/// A count of events in less memory.
fn short(count: u64) -> u16
    requires { count ≤ event_limit }
    ensures { result ≡ count }
{
    count as u16
}

/// Between which counts of process `q` all lie that it may have at the spot. The event happened before none of its
/// first `start` events. Of the event's own process it is 0 alone, whatever the spot.
pub(crate) fn range_at(computation: &Computation<'_>, spot: Spot, q: usize, start: u64) -> Range
    requires event { IsEvent computation.now.events (event_of spot) }
    requires within { q < length computation.now.events }
    requires none { HasNoneAfter computation.now.events (event_of spot) q start }
    ensures { HasRange computation.now.events spot q result }
{
    computation.limits();
    if q == spot.place.process {
        return Range { low: 0, high: 0 };
    }
    let low = computation.clock(spot.place, q);
    let high = high_from(computation, spot.place, q, start);
    Range {
        low: short(low),
        high: short(high),
    }
}

/// Whether process `q` may have the same counts at a spot as at one before it, of the same process.
pub(crate) fn keeps_range(
    computation: &Computation<'_>,
    last: Spot,
    spot: Spot,
    q: usize,
    range: Range,
) -> bool
    requires last { IsEvent computation.now.events (event_of last) }
    requires event { IsEvent computation.now.events (event_of spot) }
    requires within { q < length computation.now.events }
    requires same { last.place.process ≡ spot.place.process }
    requires later { last.place.number ≤ spot.place.number }
    requires range { HasRange computation.now.events last q range }
    ensures { IsTrue result → HasRange computation.now.events spot q range }
{
    computation.limits();
    if q == spot.place.process {
        return true;
    }
    computation.clock(spot.place, q) == range.low as u64
        && is_high(computation, spot.place, q, range.high as u64)
}
