//! The greatest consistent cut in which two processes have some events at most.
ghost use Rattle.wide_pairs.specs.Mosts.{AreMosts, IsEarly, IsMostCount};
ghost use Rattle.pd_match.specs.Views.{place_view};
ghost use Rattle.def_model.specs.Events.{IsEvent};
ghost use Rattle.std.specs.Prelude.{◌<◌, ◌↔◌, IfOk, IsTrue, length};

use pd_clock::{Computation, Place};
use std::alloc::{AllocError, Global};

/// Whether of processes `p` and `q` at most `i` and `j` events are this one or happened before it.
fn is_early(computation: &Computation<'_>, place: Place, p: usize, q: usize, i: u64, j: u64) -> bool
    requires event { IsEvent computation.now.events (place_view place) }
    requires first { p < length computation.now.events }
    requires second { q < length computation.now.events }
    ensures { IsTrue result ↔ IsEarly computation.now.events p q i j (place_view place) }
{
    computation.clock(place, p) <= i && computation.clock(place, q) <= j
}

/// How many events of process `r` are early. They are its first ones, so their number is looked for by halves.
fn most_count(computation: &Computation<'_>, p: usize, q: usize, i: u64, j: u64, r: usize) -> u64
    requires first { p < length computation.now.events }
    requires second { q < length computation.now.events }
    requires there { r < length computation.now.events }
    ensures { IsMostCount computation.now.events p q i j r result }
{
    computation.limits();
    let mut low = 0;
    let mut high = computation.events(r);
    while low < high {
        let middle = low + (high - low + 1) / 2;
        let place = Place {
            process: r,
            number: middle,
        };
        if is_early(computation, place, p, q, i, j) {
            low = middle;
        } else {
            high = middle - 1;
        }
    }
    low
}

/// The same of each process: the counts of the greatest consistent cut in which `p` has `i` events at most and `q` has
/// `j`.
///
/// # Errors
/// An allocation was refused.
pub(crate) fn most_counts(
    alloc: Global,
    computation: &Computation<'_>,
    p: usize,
    q: usize,
    i: u64,
    j: u64,
) -> Result<Vec<u64>, AllocError>
    requires first { p < length computation.now.events }
    requires second { q < length computation.now.events }
    ensures { IfOk result (λ counts. AreMosts computation.now.events p q i j counts.items) }
{
    let mut counts = Vec::with_capacity(alloc, computation.processes())?;
    for r in 0..computation.processes() {
        counts.push(most_count(computation, p, q, i, j, r))?;
    }
    Ok(counts)
}
