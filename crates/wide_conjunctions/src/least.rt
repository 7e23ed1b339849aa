//! The least good cut.
ghost use Rattle.wide_conjunctions.specs.LeastCuts.{HasNoGood, IsGood, IsLeastGood};
ghost use Rattle.wide_conjunctions.specs.Raises.{IsBelowGood, IsRaised};
ghost use Rattle.pd_match.specs.Views.{place_view};
ghost use Rattle.def_model.specs.Events.{IsEvent};
ghost use Rattle.std.specs.Prelude.{◌≡◌, ◌<◌, ℕ, IfNone, IfOk, IfSome, false, length, slice_index, true};

use super::good_counts::GoodCounts;
use pd_clock::{Computation, Cut, Place};
use std::alloc::{AllocError, Global};

/// The least consistent cut at which the count of each process is good, if there is any. From the empty cut on, the
/// least process whose count isn't good goes on to its next good one, and what happened before that event is taken in.
/// Each such step adds an event, and asks for one count of each process at most, beside those that it passes.
///
/// # Errors
/// Memory was refused.
pub fn least_good<G: GoodCounts>(
    alloc: Global,
    computation: &Computation<'_>,
    wanted: &G,
) -> Result<Option<Cut>, AllocError>
    ensures some { IfOk result (λ found. IfSome found (IsLeastGood computation.now.events (G.good wanted.now))) }
    ensures none { IfOk result (λ found. IfNone found (HasNoGood computation.now.events (G.good wanted.now))) }
{
    let mut counts = vec![in alloc; 0; computation.processes()]?;
    if !go_up(computation, wanted, &mut counts) {
        return Ok(None);
    }
    let cut = Cut::new(alloc, &counts)?;
    Ok(Some(cut))
}

/// Goes up to the least good cut, from a consistent one within each good one. Whether there is any; if there is none,
/// nothing is said of the counts. Each step adds an event.
pub fn go_up<G: GoodCounts>(computation: &Computation<'_>, wanted: &G, counts: &mut [u64]) -> bool
    requires { IsBelowGood computation.now.events (G.good wanted.now) counts.old }
    ensures found { result ≡ true → IsLeastGood computation.now.events (G.good wanted.now) counts.new }
    ensures none { result ≡ false → HasNoGood computation.now.events (G.good wanted.now) }
    ensures same { length counts.new ≡ length counts.old }
{
    computation.limits();
    while let Some(process) = first_bad(wanted, counts) {
        match wanted.next_good(process, counts[process], computation.events(process)) {
            Some(number) => include(computation, Place { process, number }, counts),
            None => return false,
        }
    }
    true
}

/// The least process whose count isn't good.
fn first_bad<G: GoodCounts>(wanted: &G, counts: &[u64]) -> Option<usize>
    ensures within { IfSome result (λ p. p < length counts.now) }
    ensures bad { IfSome result (λ p. G.good wanted.now p (slice_index counts.now p) ≡ false) }
    ensures least { IfSome result (λ p. (q : ℕ) → q < p → G.good wanted.now q (slice_index counts.now q) ≡ true) }
    ensures none { IfNone result (IsGood (G.good wanted.now) counts.now) }
{
    for p in 0..counts.len() {
        if !wanted.is_good(p, counts[p]) {
            return Some(p);
        }
    }
    None
}

/// Takes an event, and all that happened before it, into the counts.
fn include(computation: &Computation<'_>, place: Place, counts: &mut [u64])
    requires event { IsEvent computation.now.events (place_view place) }
    requires one_each { length counts.old ≡ length computation.now.events }
    ensures { IsRaised computation.now.events (place_view place) counts.old counts.new }
{
    for q in 0..counts.len() {
        let past = computation.clock(place, q);
        counts[q] = counts[q].max(past);
    }
}
