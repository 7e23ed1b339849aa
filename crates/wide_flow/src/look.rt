//! The payers at which a search looks.
ghost use Rattle.wide_flow.specs.Flows.{IsFlow};
ghost use Rattle.wide_flow.specs.Rows.{AreRows, IsRow, row_of};
ghost use Rattle.wide_flow.specs.Searches.{AreLookedAt, AreRaised, AreReached, AreTops, GoesOn, IsFree, reached_at};
ghost use Rattle.wide_flow.specs.Steps.{AreSteps, IsPast};
ghost use Rattle.std.specs.Prelude.{◌≡◌, ◌<◌, ◌≤◌, IfOk, MatchOption, OnOk, length, slice_index, slice_set, ℕ};

use super::free::free_payer;
use super::reach::{Reached, reach_takers};
use super::rows::{many_in_past, row};
use super::step::Step;
use super::takes::Flow;
use std::alloc::{AllocError, Global};

/// Where a search for step `e` begins: of each process with the payers in its past, or with the frozen ones if these
/// are more.
///
/// # Errors
/// An allocation was refused.
pub(crate) fn tops(
    alloc: Global,
    steps: &[Step<'_>],
    rows: &[Vec<usize>],
    frozen: &[usize],
    e: usize,
) -> Result<Vec<usize>, AllocError>
    requires steps { AreSteps (length rows.now) steps.now }
    requires rows { AreRows (length rows.now) steps.now rows.now }
    requires one_each { length frozen.now ≡ length rows.now }
    requires within { (p : ℕ) → p < length rows.now → slice_index frozen.now p ≤ length (row_of rows.now p) }
    requires there { e < length steps.now }
    ensures { IfOk result (λ tops. AreTops (length rows.now) steps.now rows.now frozen.now e tops.items) }
{
    let mut tops = Vec::new(alloc);
    for process in 0..rows.len() {
        let many = many_in_past(steps, rows, e, process);
        tops.push(many.max(frozen[process]))?;
    }
    Ok(tops)
}

/// Looks at the payers of a row from one place to another, which are in the past of the step at place `at`, up to one
/// that has something left.
///
/// # Errors
/// An allocation was refused.
pub(crate) fn look_between(
    steps: &[Step<'_>],
    flow: &Flow,
    reached: &mut Vec<Reached>,
    places: &mut [usize],
    at: usize,
    row: &[usize],
    from: usize,
    end: usize,
) -> Result<Option<usize>, AllocError>
    requires flow { IsFlow steps.now flow.now 0 0 }
    requires reached { AreReached steps.now flow.now reached.old.items places.old }
    requires there { at < length reached.old.items }
    requires process { (p : ℕ) × IsRow steps.now p row.now }
    requires up { from ≤ end }
    requires within { end ≤ length row.now }
    requires past { (k : ℕ) → from ≤ k → k < end
        → IsPast steps.now (slice_index row.now k) (reached_at reached.old.items at).step }
    ensures reached { OnOk result (AreReached steps.now flow.now reached.new.items places.new) }
    ensures on { OnOk result (GoesOn reached.old.items reached.new.items) }
    ensures found { IfOk result (λ found. MatchOption found
        (AreLookedAt flow.now reached.new.items row.now from end)
        (λ payer. IsFree steps.now flow.now reached.new.items at payer)) }
{
    for k in from..end {
        let payer = row[k];
        if flow.left[payer] > 0 {
            return Ok(Some(payer));
        }
        reach_takers(steps, flow, reached, places, at, payer)?;
    }
    Ok(None)
}

/// Puts a number in its place.
pub(crate) fn set_at(numbers: &mut Vec<usize>, place: usize, number: usize)
    requires { place < length numbers.old.items }
    ensures { numbers.new.items ≡ slice_set numbers.old.items place number }
{
    numbers[place] = number;
}

/// Looks at the payers in the past of the step at place `at` that weren't looked at, up to one that has something left.
///
/// # Errors
/// An allocation was refused.
pub(crate) fn extend(
    steps: &[Step<'_>],
    rows: &[Vec<usize>],
    flow: &Flow,
    reached: &mut Vec<Reached>,
    places: &mut [usize],
    jumps: &mut [usize],
    tops: &mut Vec<usize>,
    at: usize,
) -> Result<Option<usize>, AllocError>
    requires steps { AreSteps (length rows.now) steps.now }
    requires rows { AreRows (length rows.now) steps.now rows.now }
    requires flow { IsFlow steps.now flow.now 0 0 }
    requires reached { AreReached steps.now flow.now reached.old.items places.old }
    requires there { at < length reached.old.items }
    requires jumps { length jumps.old ≡ length steps.now }
    requires one_each { length tops.old.items ≡ length rows.now }
    requires within { (p : ℕ) → p < length rows.now → slice_index tops.old.items p ≤ length (row_of rows.now p) }
    ensures reached { OnOk result (AreReached steps.now flow.now reached.new.items places.new) }
    ensures on { OnOk result (GoesOn reached.old.items reached.new.items) }
    ensures found { IfOk result (λ found. MatchOption found
        (AreRaised (length rows.now) steps.now rows.now flow.now reached.new.items
        (reached_at reached.old.items at).step tops.old.items tops.new.items (length rows.now))
        (λ payer. IsFree steps.now flow.now reached.new.items at payer)) }
{
    let step = reached[at].step;
    for process in 0..rows.len() {
        let row = row(rows, process);
        let many = many_in_past(steps, rows, step, process);
        let top = tops[process];
        let free = free_payer(row, flow, jumps, top, many);
        match free {
            Some(payer) => return Ok(Some(payer)),
            None => {}
        }
        let end = many.max(top);
        let found = look_between(steps, flow, reached, places, at, row, top, end)?;
        match found {
            Some(payer) => return Ok(Some(payer)),
            None => {}
        }
        set_at(tops, process, end);
    }
    Ok(None)
}
