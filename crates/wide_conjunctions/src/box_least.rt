//! The least box of the cut with all events.
ghost use Rattle.wide_conjunctions.specs.Boxes.{HasNoBox, IsLeastBox};
ghost use Rattle.wide_conjunctions.specs.Intervals.{AreBelowBoxes, IsLeftEarly, IsLeftInTime, LeavesEarly, NoneLeavesEarly};
ghost use Rattle.def_model.specs.Cuts.{full_cut};
ghost use Rattle.std.specs.Prelude.{◌≡◌, IfNone, IfOk, IfSome, ℕ, ◌<◌, false, length, slice_index, true};

use super::good_counts::GoodCounts;
use super::intervals::enter;
use super::past::first_missing;
use pd_clock::{Computation, Place};
use std::alloc::{AllocError, Global};

/// Whether process `q` leaves its interval, at this count, before some other has come to its own.
fn leaves_early(computation: &Computation<'_>, starts: &[u64], q: usize, leave: u64) -> bool
    requires there { q < length computation.now.events }
    requires some { 0 < leave }
    requires one_each { length starts.now ≡ length computation.now.events }
    ensures yes { result ≡ true → IsLeftEarly computation.now.events starts.now q leave }
    ensures no { result ≡ false → IsLeftInTime computation.now.events starts.now q leave }
{
    if computation.events(q) < leave {
        return false;
    }
    let place = Place {
        process: q,
        number: leave,
    };
    first_missing(computation, starts, place).is_some()
}

/// The least process that leaves its interval before some other has come to its own.
fn first_early(computation: &Computation<'_>, starts: &[u64], leaves: &[u64]) -> Option<usize>
    requires starts_each { length starts.now ≡ length computation.now.events }
    requires leaves_each { length leaves.now ≡ length computation.now.events }
    requires some { (q : ℕ) → q < length leaves.now → 0 < slice_index leaves.now q }
    ensures some { IfSome result (LeavesEarly computation.now.events starts.now leaves.now) }
    ensures none { IfNone result (NoneLeavesEarly computation.now.events starts.now leaves.now) }
{
    for q in 0..leaves.len() {
        if leaves_early(computation, starts, q, leaves[q]) {
            return Some(q);
        }
    }
    None
}

/// Takes each process to its first interval. Whether each has one.
fn enter_all<G: GoodCounts>(
    computation: &Computation<'_>,
    wanted: &G,
    starts: &mut [u64],
    leaves: &mut [u64],
) -> bool
    requires { AreBelowBoxes computation.now.events (G.good wanted.now) 0 starts.old leaves.old }
    ensures some { result ≡ true → AreBelowBoxes computation.now.events (G.good wanted.now)
        (length computation.now.events) starts.new leaves.new }
    ensures none { result ≡ false
        → HasNoBox computation.now.events (G.good wanted.now) (full_cut computation.now.events) }
{
    computation.limits();
    for q in 0..computation.processes() {
        if !enter(computation, wanted, q, 0, starts, leaves) {
            return false;
        }
    }
    true
}

/// Goes on to the least box: while a process leaves its interval before some other has come to its own, it goes to its
/// next one. Whether there is a box.
fn go_on<G: GoodCounts>(
    computation: &Computation<'_>,
    wanted: &G,
    starts: &mut [u64],
    leaves: &mut [u64],
) -> bool
    requires { AreBelowBoxes computation.now.events (G.good wanted.now) (length computation.now.events)
        starts.old leaves.old }
    ensures some { result ≡ true → IsLeastBox computation.now.events (G.good wanted.now) starts.new }
    ensures none { result ≡ false
        → HasNoBox computation.now.events (G.good wanted.now) (full_cut computation.now.events) }
{
    computation.limits();
    while let Some(q) = first_early(computation, starts, leaves) {
        if !enter(computation, wanted, q, leaves[q], starts, leaves) {
            return false;
        }
    }
    true
}

/// The least box of the cut with all events, as the count at which each process comes to its interval, or none if there
/// is no box. Each count is looked at once, and a process leaves each interval once.
///
/// # Errors
/// An allocation was refused.
pub fn least_box<G: GoodCounts>(
    alloc: Global,
    computation: &Computation<'_>,
    wanted: &G,
) -> Result<Option<Vec<u64>>, AllocError>
    ensures some { IfOk result (λ found.
        IfSome found (λ starts. IsLeastBox computation.now.events (G.good wanted.now) starts.items)) }
    ensures none { IfOk result (λ found. IfNone found
        (HasNoBox computation.now.events (G.good wanted.now) (full_cut computation.now.events))) }
{
    let mut starts = vec![in alloc; 0; computation.processes()]?;
    let mut leaves = vec![in alloc; 0; computation.processes()]?;
    if !enter_all(computation, wanted, &mut starts, &mut leaves) {
        return Ok(None);
    }
    if !go_on(computation, wanted, &mut starts, &mut leaves) {
        return Ok(None);
    }
    Ok(Some(starts))
}
