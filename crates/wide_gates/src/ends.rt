//! The least and the greatest counts right before or right after an event.
ghost use Rattle.wide_gates.specs.Ends.{AreBelowHighs, AreHighs, HasBound, IsEnd};
ghost use Rattle.wide_gates.specs.Highs.{HasNoneAfter, IsHigh};
ghost use Rattle.wide_gates.specs.Spots.{AreThere, IsAt, event_of};
ghost use Rattle.wide_gates.specs.declared.spot.Spot.{Spot};
ghost use Rattle.def_model.specs.Events.{IsEvent};
ghost use Rattle.std.specs.Prelude.{◌≡◌, ◌-◌, ◌<◌, IfOk, length, slice_index_or};

use super::high::{high_from, start_of};
use super::spot::{Spot, own};
use pd_clock::{Computation, Cut};
use std::alloc::{AllocError, Global};

/// How many events of process `q` come before the first of them that the event of spot `k` happened before. So many as
/// `high` come before all that the event of the spot before it did.
fn next_high(computation: &Computation<'_>, spots: &[Spot], k: usize, q: usize, high: u64) -> u64
    requires spots { AreThere computation.now.events spots.now }
    requires there { k < length spots.now }
    requires within { q < length computation.now.events }
    requires none { (d : Spot) → HasNoneAfter computation.now.events (event_of (slice_index_or spots.now (k - 1) d)) q
        high }
    ensures { (d : Spot) → IsHigh computation.now.events (event_of (slice_index_or spots.now k d)) q result }
{
    let last = spots[k.saturating_sub(1)].place;
    let place = spots[k].place;
    let start = start_of(computation, last, place, q, high);
    high_from(computation, place, q, start)
}

/// How many events of each process come before the first that the event of spot `k` happened before. `highs` has them
/// for the spot before it.
pub(crate) fn next_highs(computation: &Computation<'_>, spots: &[Spot], k: usize, highs: &mut [u64])
    requires spots { AreThere computation.now.events spots.now }
    requires there { k < length spots.now }
    requires none { (d : Spot) → AreBelowHighs computation.now.events (event_of (slice_index_or spots.now (k - 1) d))
        highs.old }
    ensures { (d : Spot) → AreHighs computation.now.events (event_of (slice_index_or spots.now k d)) highs.new }
{
    for q in 0..computation.processes() {
        highs[q] = next_high(computation, spots, k, q, highs[q]);
    }
}

/// The greatest count that process `q` may have at the spot, or the least. `high` of its events come before the first
/// that the event happened before.
fn bound_at(computation: &Computation<'_>, spot: Spot, q: usize, high: u64, greatest: bool) -> u64
    requires event { IsEvent computation.now.events (event_of spot) }
    requires within { q < length computation.now.events }
    requires high { IsHigh computation.now.events (event_of spot) q high }
    ensures { HasBound computation.now.events spot greatest q result }
{
    computation.limits();
    if spot.place.process == q {
        return own(spot);
    }
    let low = computation.clock(spot.place, q);
    if greatest { high } else { low }
}

/// The greatest counts at a spot, or the least. `highs` has for each process how many of its events come before the
/// first that the event happened before.
///
/// # Errors
/// An allocation was refused.
pub(crate) fn end_at(
    alloc: Global,
    computation: &Computation<'_>,
    spot: Spot,
    highs: &[u64],
    greatest: bool,
) -> Result<Cut, AllocError>
    requires event { IsEvent computation.now.events (event_of spot) }
    requires highs { AreHighs computation.now.events (event_of spot) highs.now }
    ensures { IfOk result (λ cut. IsEnd greatest (IsAt computation.now.events spot) cut) }
{
    computation.limits();
    let mut counts = Vec::new(alloc);
    for q in 0..computation.processes() {
        counts.push(bound_at(computation, spot, q, highs[q], greatest))?;
    }
    let cut = Cut::new(alloc, &counts)?;
    Ok(cut)
}
