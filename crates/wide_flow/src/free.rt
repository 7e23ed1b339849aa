//! The last payer of a row that has something left.
ghost use Rattle.wide_flow.specs.Flows.{CanTake, IsFlow};
ghost use Rattle.wide_flow.specs.Searches.{HasPayer};
ghost use Rattle.wide_flow.specs.Rows.{AreRows};
ghost use Rattle.wide_flow.specs.Steps.{AreSteps, is_negative};
ghost use Rattle.std.specs.Prelude.{◌≡◌, ◌-◌, ◌<◌, ◌≤◌, IfSome, false, length, slice_index, ℕ};

use super::rows::{many_in_past, row};
use super::step::Step;
use super::takes::Flow;

/// The number of payers, of the first `many` of a row, up to the last one that has something left, or 0. From a payer
/// that has nothing left, `jumps` leads to a lesser number, where there may be one again. No clause rests on it. What
/// is passed over has nothing left for good.
fn last_free(row: &[usize], flow: &Flow, jumps: &[usize], many: usize) -> usize
    requires within { many ≤ length row.now }
    requires left { (k : ℕ) → k < many → slice_index row.now k < length flow.now.left.items }
    requires jumps { (k : ℕ) → k < many → slice_index row.now k < length jumps.now }
    ensures up { result ≤ many }
    ensures some { 0 < result → 0 < slice_index flow.now.left.items (slice_index row.now (result - 1)) }
{
    let mut last = many;
    while last > 0 {
        let payer = row[last - 1];
        if flow.left[payer] > 0 {
            return last;
        }
        last = jumps[payer].min(last - 1);
    }
    0
}

/// Lets each payer that was passed over from `many` down lead to the number at which that ended.
fn shorten(row: &[usize], jumps: &mut [usize], many: usize, end: usize)
    requires within { many ≤ length row.now }
    requires jumps { (k : ℕ) → k < many → slice_index row.now k < length jumps.old }
{
    let mut last = many;
    while last > end {
        let payer = row[last - 1];
        let next = jumps[payer].min(last - 1);
        jumps[payer] = end;
        last = next;
    }
}

/// A payer, of the first `many` of a row, that has something left: the last one. The first `none` of them have nothing
/// left, as is known.
pub(crate) fn free_payer(
    row: &[usize],
    flow: &Flow,
    jumps: &mut [usize],
    none: usize,
    many: usize,
) -> Option<usize>
    requires within { many ≤ length row.now }
    requires left { (k : ℕ) → k < many → slice_index row.now k < length flow.now.left.items }
    requires jumps { (k : ℕ) → k < many → slice_index row.now k < length jumps.old }
    ensures { IfSome result (λ payer. HasPayer flow.now row.now many payer) }
{
    if many <= none {
        return None;
    }
    let last = last_free(row, flow, jumps, many);
    shorten(row, jumps, many, last);
    if last == 0 {
        return None;
    }
    Some(row[last - 1])
}

/// A payer in the past of step `e` that has something left.
pub(crate) fn free_in_past(
    steps: &[Step<'_>],
    rows: &[Vec<usize>],
    flow: &Flow,
    frozen: &[usize],
    e: usize,
    jumps: &mut [usize],
) -> Option<usize>
    requires steps { AreSteps (length rows.now) steps.now }
    requires rows { AreRows (length rows.now) steps.now rows.now }
    requires flow { IsFlow steps.now flow.now 0 0 }
    requires frozen { length frozen.now ≡ length rows.now }
    requires there { e < length steps.now }
    requires positive { is_negative steps.now e ≡ false }
    requires jumps { length jumps.old ≡ length steps.now }
    ensures can { IfSome result (λ payer. CanTake steps.now e payer) }
    ensures some { IfSome result (λ payer. 0 < slice_index flow.now.left.items payer) }
{
    for process in 0..rows.len() {
        let row = row(rows, process);
        let many = many_in_past(steps, rows, e, process);
        let found = free_payer(row, flow, jumps, frozen[process], many);
        match found {
            Some(payer) => return Some(payer),
            None => {}
        }
    }
    None
}
