//! An amount is moved along the way by which a payer was found.
ghost use Rattle.wide_flow.specs.Closed.{IsClosed};
ghost use Rattle.wide_flow.specs.Flows.{AreBelow, IsFlow, IsTakenInside};
ghost use Rattle.wide_flow.specs.Searches.{AreOnce, AreReached, IsFree, IsReachedFrom, reached_at};
ghost use Rattle.wide_flow.specs.Steps.{is_negative};
ghost use Rattle.std.specs.Prelude.{◌≡◌, ◌≢◌, ◌<◌, ◌≤◌, Bool, List, OnOk, false, length, slice_index, ℕ};

use super::reach::Reached;
use super::step::Step;
use super::takes::{Flow, draw, hand_over, lower};
use std::alloc::AllocError;

/// Moves an excess of the step at place `at` to the step from which all were reached. On the way back each step takes
/// it from the payer by which the next one was reached, and that one gives it up.
///
/// # Errors
/// An allocation was refused.
fn carry_back(
    steps: &[Step<'_>],
    flow: &mut Flow,
    reached: &[Reached],
    at: usize,
    amount: u128,
) -> Result<(), AllocError>
    requires there { at < length reached.now }
    requires flow { IsFlow steps.now flow.old (reached_at reached.now at).step amount }
    requires steps { (j : ℕ) → j < length reached.now → (reached_at reached.now j).step < length steps.now }
    requires positive { (j : ℕ) → j < length reached.now
        → is_negative steps.now (reached_at reached.now j).step ≡ false }
    requires once { AreOnce reached.now }
    requires from { (j : ℕ) → 0 < j → j < length reached.now
        → IsReachedFrom steps.now flow.old.takes.items reached.now j }
    requires some { 0 < amount }
    requires enough { amount ≤ (reached_at reached.now at).room }
    ensures flow { OnOk result (IsFlow steps.now flow.new (reached_at reached.now 0).step amount) }
    ensures left { OnOk result (flow.new.left.items ≡ flow.old.left.items) }
    ensures enough { OnOk result (amount ≤ (reached_at reached.now 0).room) }
    ensures below { OnOk result ((n : ℕ) → AreBelow n flow.old.takes.items
        → ((j : ℕ) → j < length reached.now → (reached_at reached.now j).step < n) → AreBelow n flow.new.takes.items) }
    ensures inside { OnOk result ((set : ℕ → Bool) → IsClosed steps.now set → IsTakenInside set flow.old.takes.items
        → set (reached_at reached.now at).step ≡ false → IsTakenInside set flow.new.takes.items) }
{
    let mut at = at;
    while at > 0 {
        let next = reached[at];
        let from = reached[next.from];
        hand_over(steps, flow, next.by, from.step, amount)?;
        at = next.from;
    }
    Ok(())
}

/// Lets step `e`, from which all were reached, have what the step at place `at` can take from a payer.
///
/// # Errors
/// An allocation was refused.
pub(crate) fn pay(
    steps: &[Step<'_>],
    flow: &mut Flow,
    reached: &[Reached],
    e: usize,
    at: usize,
    payer: usize,
) -> Result<(), AllocError>
    requires flow { IsFlow steps.now flow.old 0 0 }
    requires reached { (places : List ℕ) × AreReached steps.now flow.old reached.now places }
    requires first { (reached_at reached.now 0).step ≡ e }
    requires free { IsFree steps.now flow.old reached.now at payer }
    ensures flow { OnOk result (IsFlow steps.now flow.new 0 0) }
    ensures less { OnOk result (slice_index flow.new.left.items e < slice_index flow.old.left.items e) }
    ensures none_more { OnOk result ((s : ℕ) → slice_index flow.new.left.items s ≤ slice_index flow.old.left.items s) }
    ensures same { OnOk result ((s : ℕ) → s ≢ e → is_negative steps.now s ≡ false
        → slice_index flow.new.left.items s ≡ slice_index flow.old.left.items s) }
    ensures below { OnOk result ((n : ℕ) → AreBelow n flow.old.takes.items
        → ((j : ℕ) → j < length reached.now → (reached_at reached.now j).step < n) → AreBelow n flow.new.takes.items) }
    ensures inside { OnOk result ((set : ℕ → Bool) → IsClosed steps.now set → IsTakenInside set flow.old.takes.items
        → set payer ≡ false → IsTakenInside set flow.new.takes.items) }
{
    let last = reached[at];
    let amount = last.room.min(flow.left[payer]);
    draw(steps, flow, last.step, payer, amount)?;
    carry_back(steps, flow, reached, at, amount)?;
    lower(flow, e, amount);
    Ok(())
}
