//! The greatest cut in which no process has come to a good count.
ghost use Rattle.wide_conjunctions.specs.Clauses.{IsGoodAtFirst, IsMostBefore};
ghost use Rattle.wide_conjunctions.specs.Firsts.{AreFreeCounts, IsFree, IsFreeCount, IsLate};
ghost use Rattle.pd_match.specs.Views.{place_view};
ghost use Rattle.def_model.specs.Events.{IsEvent};
ghost use Rattle.std.specs.Prelude.{◌≡◌, ◌<◌, IfNone, IfOk, IfSome, false, length, true};

use super::firsts::{first_goods, has_zero};
use super::good_counts::GoodCounts;
use pd_clock::{Computation, Cut, Place};
use std::alloc::{AllocError, Global};

/// Whether neither this event nor one that happened before it brings a process to its first good count.
fn is_free(computation: &Computation<'_>, firsts: &[u64], place: Place) -> bool
    requires event { IsEvent computation.now.events (place_view place) }
    requires one_each { length firsts.now ≡ length computation.now.events }
    ensures yes { result ≡ true → IsFree computation.now.events firsts.now (place_view place) }
    ensures no { result ≡ false → IsLate computation.now.events firsts.now (place_view place) }
{
    for q in 0..firsts.len() {
        if computation.clock(place, q) >= firsts[q] {
            return false;
        }
    }
    true
}

/// How many of the first events of process `p`, counted from 0, are free.
fn free_count(computation: &Computation<'_>, firsts: &[u64], p: usize) -> u64
    requires within { p < length computation.now.events }
    requires one_each { length firsts.now ≡ length computation.now.events }
    ensures { IsFreeCount computation.now.events firsts.now p result }
{
    computation.limits();
    let count = computation.events(p);
    for n in 0..count {
        let place = Place {
            process: p,
            number: n + 1,
        };
        if !is_free(computation, firsts, place) {
            return n;
        }
    }
    count
}

/// The same of each process.
///
/// # Errors
/// An allocation was refused.
fn free_counts(
    alloc: Global,
    computation: &Computation<'_>,
    firsts: &[u64],
) -> Result<Vec<u64>, AllocError>
    requires { length firsts.now ≡ length computation.now.events }
    ensures { IfOk result (λ counts. AreFreeCounts computation.now.events firsts.now counts.items) }
{
    let mut counts = Vec::with_capacity(alloc, computation.processes())?;
    for p in 0..computation.processes() {
        counts.push(free_count(computation, firsts, p))?;
    }
    Ok(counts)
}

/// The greatest consistent cut in which no process has come to a good count, or none if one has in the empty cut. Each
/// count is looked at once, and the clock of each event up to the first that isn't free.
///
/// # Errors
/// An allocation was refused.
pub fn most_before<G: GoodCounts>(
    alloc: Global,
    computation: &Computation<'_>,
    wanted: &G,
) -> Result<Option<Cut>, AllocError>
    ensures some { IfOk result (λ found. IfSome found (IsMostBefore computation.now.events (G.good wanted.now))) }
    ensures none { IfOk result (λ found. IfNone found (IsGoodAtFirst computation.now.events (G.good wanted.now))) }
{
    let firsts = first_goods(alloc, computation, wanted)?;
    if has_zero(&firsts) {
        return Ok(None);
    }
    let counts = free_counts(alloc, computation, &firsts)?;
    let cut = Cut::new(alloc, &counts)?;
    Ok(Some(cut))
}
