//! Whether there is a box, looked for from the last intervals on.
ghost use Rattle.wide_conjunctions.specs.Boxes.{HasBox, HasNoBox};
ghost use Rattle.wide_conjunctions.specs.Rows.{AreRows};
ghost use Rattle.wide_conjunctions.specs.Ways.{AreAboveBoxes, HasEnteredBefore, HasNoneBefore, HasNoneEarlier, IsInTime, IsInTimeAt, IsLate, IsLateAt, NoneIsLate, NoneIsLateAt};
ghost use Rattle.def_model.specs.Cuts.{IsConsistent};
ghost use Rattle.def_model.specs.Events.{event_count};
ghost use Rattle.std.specs.Prelude.{◌≡◌, ◌+◌, ◌<◌, ◌≤◌, ℕ, IfNone, IfSome, false, length, slice_index, true};

use super::good_counts::GoodCounts;
use super::past::first_missing;
use super::rows::Row;
use pd_clock::{Computation, Place};

/// Takes process `q` to its last interval before a count. Whether there is one. What is wanted is there for the
/// contract alone.
fn enter_before<G: GoodCounts>(
    computation: &Computation<'_>,
    _wanted: &G,
    rows: &[Row],
    q: usize,
    before: u64,
    starts: &mut [u64],
    leaves: &mut [u64],
) -> bool
    requires rows { AreRows computation.now.events (G.good _wanted.now) rows.now }
    requires there { q < length computation.now.events }
    requires within { before ≤ event_count computation.now.events q + 1 }
    requires starts_each { length starts.old ≡ length computation.now.events }
    requires leaves_each { length leaves.old ≡ length computation.now.events }
    ensures some { result ≡ true
        → HasEnteredBefore (G.good _wanted.now q) q before starts.old leaves.old starts.new leaves.new }
    ensures none { result ≡ false → HasNoneBefore (G.good _wanted.now q) before }
    ensures starts_same { length starts.new ≡ length starts.old }
    ensures leaves_same { length leaves.new ≡ length leaves.old }
{
    let row = &rows[q];
    let leave = row.leave_before(before);
    if leave == 0 {
        return false;
    }
    starts[q] = row.start_before(before);
    leaves[q] = leave;
    true
}

/// Takes each process to its last interval within the cut. Whether each has one.
fn enter_last<G: GoodCounts>(
    computation: &Computation<'_>,
    wanted: &G,
    rows: &[Row],
    cut: &[u64],
    starts: &mut [u64],
    leaves: &mut [u64],
) -> bool
    requires rows { AreRows computation.now.events (G.good wanted.now) rows.now }
    requires consistent { IsConsistent computation.now.events cut.now }
    requires starts_each { length starts.old ≡ length computation.now.events }
    requires leaves_each { length leaves.old ≡ length computation.now.events }
    ensures some { result ≡ true → AreAboveBoxes computation.now.events (G.good wanted.now) cut.now
        (length computation.now.events) starts.new leaves.new }
    ensures none { result ≡ false → HasNoBox computation.now.events (G.good wanted.now) cut.now }
    ensures starts_same { length starts.new ≡ length starts.old }
    ensures leaves_same { length leaves.new ≡ length leaves.old }
{
    computation.limits();
    for q in 0..cut.len() {
        if !enter_before(computation, wanted, rows, q, cut[q] + 1, starts, leaves) {
            return false;
        }
    }
    true
}

/// A process that hasn't come to its interval where process `q` leaves its own, if it does so within the cut.
fn late_at(
    computation: &Computation<'_>,
    cut: &[u64],
    starts: &[u64],
    q: usize,
    leave: u64,
) -> Option<usize>
    requires there { q < length computation.now.events }
    requires some { 0 < leave }
    requires consistent { IsConsistent computation.now.events cut.now }
    requires one_each { length starts.now ≡ length computation.now.events }
    ensures some { IfSome result (IsLateAt computation.now.events cut.now starts.now q leave) }
    ensures none { IfNone result (NoneIsLateAt computation.now.events cut.now starts.now q leave) }
{
    if cut[q] < leave {
        return None;
    }
    let place = Place {
        process: q,
        number: leave,
    };
    first_missing(computation, starts, place)
}

/// Whether process `r` hasn't come to its interval where process `q` leaves its own, if it does so within the cut.
fn is_late_at(
    computation: &Computation<'_>,
    cut: &[u64],
    starts: &[u64],
    q: usize,
    leave: u64,
    r: usize,
) -> bool
    requires there { q < length computation.now.events }
    requires wanted { r < length computation.now.events }
    requires some { 0 < leave }
    requires consistent { IsConsistent computation.now.events cut.now }
    requires one_each { length starts.now ≡ length computation.now.events }
    ensures yes { result ≡ true → IsLateAt computation.now.events cut.now starts.now q leave r }
    ensures no { result ≡ false → IsInTimeAt computation.now.events cut.now starts.now q leave r }
{
    if cut[q] < leave {
        return false;
    }
    let place = Place {
        process: q,
        number: leave,
    };
    computation.clock(place, r) < starts[r]
}

/// Whether process `r` hasn't come to its interval where some other leaves its own within the cut.
fn is_late(
    computation: &Computation<'_>,
    cut: &[u64],
    starts: &[u64],
    leaves: &[u64],
    r: usize,
) -> bool
    requires wanted { r < length computation.now.events }
    requires consistent { IsConsistent computation.now.events cut.now }
    requires starts_each { length starts.now ≡ length computation.now.events }
    requires leaves_each { length leaves.now ≡ length computation.now.events }
    requires some { (q : ℕ) → q < length leaves.now → 0 < slice_index leaves.now q }
    ensures yes { result ≡ true → IsLate computation.now.events cut.now starts.now leaves.now r }
    ensures no { result ≡ false → IsInTime computation.now.events cut.now starts.now leaves.now r }
{
    for q in 0..leaves.len() {
        if is_late_at(computation, cut, starts, q, leaves[q], r) {
            return true;
        }
    }
    false
}

/// A process that hasn't come to its interval where some other leaves its own within the cut: `p`, if it is one.
fn first_late(
    computation: &Computation<'_>,
    cut: &[u64],
    starts: &[u64],
    leaves: &[u64],
    p: usize,
) -> Option<usize>
    requires wanted { p < length computation.now.events }
    requires consistent { IsConsistent computation.now.events cut.now }
    requires starts_each { length starts.now ≡ length computation.now.events }
    requires leaves_each { length leaves.now ≡ length computation.now.events }
    requires some { (q : ℕ) → q < length leaves.now → 0 < slice_index leaves.now q }
    ensures some { IfSome result (IsLate computation.now.events cut.now starts.now leaves.now) }
    ensures none { IfNone result (NoneIsLate computation.now.events cut.now starts.now leaves.now) }
{
    if is_late(computation, cut, starts, leaves, p) {
        return Some(p);
    }
    for q in 0..leaves.len() {
        if let Some(r) = late_at(computation, cut, starts, q, leaves[q]) {
            return Some(r);
        }
    }
    None
}

/// Whether there is a box in the cut, if none has its count of process `p` in an earlier interval than the last one.
/// From the last intervals on, a process that hasn't come to its interval where another leaves its own goes to the one
/// before. As soon as `p` is such a one there is none, so it is looked at first. The two lists are there to be written
/// to.
pub(crate) fn has_box<G: GoodCounts>(
    computation: &Computation<'_>,
    wanted: &G,
    rows: &[Row],
    cut: &[u64],
    p: usize,
    starts: &mut [u64],
    leaves: &mut [u64],
) -> bool
    requires rows { AreRows computation.now.events (G.good wanted.now) rows.now }
    requires there { p < length computation.now.events }
    requires consistent { IsConsistent computation.now.events cut.now }
    requires none_earlier { HasNoneEarlier computation.now.events (G.good wanted.now) cut.now p }
    requires starts_each { length starts.old ≡ length computation.now.events }
    requires leaves_each { length leaves.old ≡ length computation.now.events }
    ensures yes { result ≡ true → HasBox computation.now.events (G.good wanted.now) cut.now }
    ensures no { result ≡ false → HasNoBox computation.now.events (G.good wanted.now) cut.now }
    ensures starts_same { length starts.new ≡ length starts.old }
    ensures leaves_same { length leaves.new ≡ length leaves.old }
{
    computation.limits();
    if !enter_last(computation, wanted, rows, cut, starts, leaves) {
        return false;
    }
    while let Some(r) = first_late(computation, cut, starts, leaves, p) {
        if r == p {
            return false;
        }
        if !enter_before(computation, wanted, rows, r, starts[r], starts, leaves) {
            return false;
        }
    }
    true
}
