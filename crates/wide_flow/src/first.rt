//! The first key at which a closed set of steps reaches a target.
ghost use Rattle.wide_flow.specs.Closed.{HasNoKey, IsFirstKey};
ghost use Rattle.wide_flow.specs.Parts.{IsPart};
ghost use Rattle.wide_flow.specs.Rows.{AreRows};
ghost use Rattle.wide_flow.specs.Steps.{AreSteps, is_negative, sizes};
ghost use Rattle.std.specs.Prelude.{◌≡◌, ◌<◌, [], IfOk, MatchOption, false, length, replicate, true};

use super::rows::rows;
use super::step::Step;
use super::supply::supply;
use super::takes::Flow;
use std::alloc::{AllocError, Global};

/// The flow in which nothing is taken.
///
/// # Errors
/// An allocation was refused.
fn start(alloc: Global, steps: &[Step<'_>]) -> Result<Flow, AllocError>
    ensures left { IfOk result (λ flow. flow.left.items ≡ sizes steps.now) }
    ensures takes { IfOk result (λ flow. flow.takes.items ≡ []) }
    ensures last { IfOk result (λ flow. flow.last.items ≡ replicate (length steps.now) 0) }
{
    let left = steps
        .iter()
        .map(|step| step.weight.unsigned_abs())
        .collect(alloc)?;
    let last = vec![in alloc; 0; steps.len()]?;
    Ok(Flow {
        left,
        takes: Vec::new(alloc),
        last,
    })
}

/// Whether the step at this place is positive, or adds nothing.
fn is_positive(steps: &[Step<'_>], e: usize) -> bool
    requires { e < length steps.now }
    ensures positive { result ≡ true → is_negative steps.now e ≡ false }
    ensures negative { result ≡ false → is_negative steps.now e ≡ true }
{
    steps[e].weight >= 0
}

/// Supplies the steps one after another, until what they have left reaches the target.
///
/// # Errors
/// An allocation was refused.
fn gain(
    alloc: Global,
    steps: &[Step<'_>],
    rows: &[Vec<usize>],
    flow: &mut Flow,
    frozen: &mut Vec<usize>,
    places: &mut [usize],
    jumps: &mut [usize],
    target: u128,
) -> Result<Option<u32>, AllocError>
    requires steps { AreSteps (length rows.now) steps.now }
    requires rows { AreRows (length rows.now) steps.now rows.now }
    requires part { IsPart (length rows.now) steps.now rows.now flow.old frozen.old.items 0 0 }
    requires jumps { length jumps.old ≡ length steps.now }
    requires places { length places.old ≡ length steps.now }
    requires some { 0 < target }
    ensures { IfOk result (λ key. MatchOption key (HasNoKey steps.now target) (IsFirstKey steps.now target)) }
{
    let mut gained: u128 = 0;
    for e in 0..steps.len() {
        if !is_positive(steps, e) {
            continue;
        }
        supply(alloc, steps, rows, flow, frozen, places, jumps, e)?;
        gained += flow.left[e];
        if gained >= target {
            return Ok(Some(steps[e].key));
        }
    }
    Ok(None)
}

/// The first key such that some closed set of steps with keys up to it has a sum of `target` or more, if there is one.
///
/// # Errors
/// An allocation was refused.
pub fn first_key(
    alloc: Global,
    steps: &[Step<'_>],
    processes: usize,
    target: u128,
) -> Result<Option<u32>, AllocError>
    requires steps { AreSteps processes steps.now }
    requires some { 0 < target }
    ensures { IfOk result (λ key. MatchOption key (HasNoKey steps.now target) (IsFirstKey steps.now target)) }
{
    let rows = rows(alloc, steps, processes)?;
    let mut flow = start(alloc, steps)?;
    let mut frozen = vec![in alloc; 0; processes]?;
    let mut places = vec![in alloc; 0; steps.len()]?;
    let mut jumps = vec![in alloc; usize::MAX; steps.len()]?;
    gain(
        alloc,
        steps,
        &rows,
        &mut flow,
        &mut frozen,
        &mut places,
        &mut jumps,
        target,
    )
}
