//! How a step that lacks something looks for a payer.
ghost use Rattle.wide_flow.specs.Flows.{IsFlow};
ghost use Rattle.wide_flow.specs.Rows.{AreRows, row_of};
ghost use Rattle.wide_flow.specs.Searches.{AreReached, HasFound, IsEnded, IsFree, IsSearch, reached_at};
ghost use Rattle.wide_flow.specs.Steps.{AreSteps, is_negative};
ghost use Rattle.std.specs.Prelude.{◌≡◌, ◌<◌, ◌≤◌, IfOk, MatchOption, OnOk, false, length, slice_index, ℕ};

use super::free::free_in_past;
use super::look::{extend, look_between, set_at, tops};
use super::reach::{Reached, begin};
use super::rows::row;
use super::step::Step;
use super::takes::Flow;
use std::alloc::{AllocError, Global};

/// A payer for the step that was reached at this place.
#[derive(Clone, Copy)]
pub(crate) struct Payer {
    pub(crate) at: usize,
    pub(crate) step: usize,
}

/// The steps that a search has reached, of each process how many payers are in their pasts, and a payer that has
/// something left, if there is one.
#[derive(Drop)]
pub(crate) struct Found {
    pub(crate) reached: Vec<Reached>,
    pub(crate) tops: Vec<usize>,
    pub(crate) payer: Option<Payer>,
}

/// A process of which payers that aren't frozen come before `lows`: that whose next one has the greatest count.
fn latest_process(
    steps: &[Step<'_>],
    rows: &[Vec<usize>],
    frozen: &[usize],
    lows: &[usize],
) -> Option<usize>
    requires rows { AreRows (length rows.now) steps.now rows.now }
    requires frozen { length frozen.now ≡ length rows.now }
    requires one_each { length lows.now ≡ length rows.now }
    requires within { (p : ℕ) → p < length rows.now → slice_index lows.now p ≤ length (row_of rows.now p) }
    ensures { MatchOption result
        ((p : ℕ) → p < length rows.now → slice_index lows.now p ≤ slice_index frozen.now p)
        (λ p. (p < length rows.now) × (slice_index frozen.now p < slice_index lows.now p)) }
{
    let mut best = None;
    let mut greatest = 0;
    for process in 0..rows.len() {
        let low = lows[process];
        if low > frozen[process] {
            let count = steps[row(rows, process)[low - 1]].count;
            if best.is_none() || count > greatest {
                best = Some(process);
                greatest = count;
            }
        }
    }
    best
}

/// Goes on with a search, the latest payers first.
///
/// # Errors
/// An allocation was refused.
fn go_on(
    steps: &[Step<'_>],
    rows: &[Vec<usize>],
    flow: &Flow,
    frozen: &[usize],
    places: &mut [usize],
    jumps: &mut [usize],
    reached: &mut Vec<Reached>,
    lows: &mut Vec<usize>,
    tops: &mut Vec<usize>,
) -> Result<Option<Payer>, AllocError>
    requires steps { AreSteps (length rows.now) steps.now }
    requires rows { AreRows (length rows.now) steps.now rows.now }
    requires flow { IsFlow steps.now flow.now 0 0 }
    requires frozen { length frozen.now ≡ length rows.now }
    requires jumps { length jumps.old ≡ length steps.now }
    requires reached { AreReached steps.now flow.now reached.old.items places.old }
    requires search { IsSearch (length rows.now) steps.now rows.now flow.now frozen.now
        (reached_at reached.old.items 0).step reached.old.items lows.old.items tops.old.items 1 }
    ensures reached { OnOk result (AreReached steps.now flow.now reached.new.items places.new) }
    ensures first { OnOk result ((reached_at reached.new.items 0).step ≡ (reached_at reached.old.items 0).step) }
    ensures found { IfOk result (λ found. MatchOption found
        (IsEnded (length rows.now) steps.now rows.now flow.now frozen.now reached.new.items tops.new.items)
        (λ payer. IsFree steps.now flow.now reached.new.items payer.at payer.step)) }
{
    let mut at = 1;
    'looking: loop {
        if at < reached.len() {
            let found = extend(steps, rows, flow, reached, places, jumps, tops, at)?;
            match found {
                Some(step) => return Ok(Some(Payer { at, step })),
                None => {}
            }
            at += 1;
        } else {
            let process = match latest_process(steps, rows, frozen, lows) {
                Some(process) => process,
                None => return Ok(None),
            };
            let k = lows[process] - 1;
            let row = row(rows, process);
            let found = look_between(steps, flow, reached, places, 0, row, k, k + 1)?;
            match found {
                Some(step) => return Ok(Some(Payer { at: 0, step })),
                None => {}
            }
            set_at(lows, process, k);
        }
    }
}

/// Looks for a payer for step `e`.
///
/// # Errors
/// An allocation was refused.
pub(crate) fn search(
    alloc: Global,
    steps: &[Step<'_>],
    rows: &[Vec<usize>],
    flow: &Flow,
    frozen: &[usize],
    places: &mut [usize],
    jumps: &mut [usize],
    e: usize,
) -> Result<Found, AllocError>
    requires steps { AreSteps (length rows.now) steps.now }
    requires rows { AreRows (length rows.now) steps.now rows.now }
    requires flow { IsFlow steps.now flow.now 0 0 }
    requires frozen { length frozen.now ≡ length rows.now }
    requires within { (p : ℕ) → p < length rows.now → slice_index frozen.now p ≤ length (row_of rows.now p) }
    requires there { e < length steps.now }
    requires positive { is_negative steps.now e ≡ false }
    requires lacks { 0 < slice_index flow.now.left.items e }
    requires jumps { length jumps.old ≡ length steps.now }
    requires places { length places.old ≡ length steps.now }
    ensures reached { IfOk result (λ found. AreReached steps.now flow.now found.reached.items places.new) }
    ensures first { IfOk result (λ found. (reached_at found.reached.items 0).step ≡ e) }
    ensures found { IfOk result (λ found. HasFound (length rows.now) steps.now rows.now flow.now frozen.now found) }
{
    let mut reached = begin(alloc, steps, flow, e, places)?;
    let free = free_in_past(steps, rows, flow, frozen, e, jumps);
    match free {
        Some(step) => {
            return Ok(Found {
                reached,
                tops: Vec::new(alloc),
                payer: Some(Payer { at: 0, step }),
            });
        }
        None => {}
    }
    let mut tops = tops(alloc, steps, rows, frozen, e)?;
    let mut lows = tops.to_vec(alloc)?;
    let payer = go_on(
        steps,
        rows,
        flow,
        frozen,
        places,
        jumps,
        &mut reached,
        &mut lows,
        &mut tops,
    )?;
    Ok(Found {
        reached,
        tops,
        payer,
    })
}
