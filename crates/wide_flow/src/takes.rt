//! What positive steps take from negative steps in their pasts.
ghost use Rattle.wide_flow.specs.Flows.{AreBelow, CanTake, IsFlow, IsTakenInside, take_at};
ghost use Rattle.std.specs.Prelude.{◌≡◌, ◌≢◌, ◌+◌, ◌-◌, ◌++◌, ◌∷◌, [], ◌<◌, ◌≤◌, Bool, false, OnOk, length, slice_index, slice_set, ℕ};

use super::step::Step;
use std::alloc::AllocError;

/// An amount that a positive step takes from a negative one. With it goes the place of the take before it from the same
/// payer, counted from 1, or 0.
#[derive(Clone, Copy)]
pub(crate) struct Take {
    pub(crate) taker: usize,
    pub(crate) payer: usize,
    pub(crate) amount: u128,
    pub(crate) before: usize,
}

/// What each step has left, all takes, and for each step the place of the last take from it, counted from 1, or 0.
#[derive(Drop)]
pub(crate) struct Flow {
    pub(crate) left: Vec<u128>,
    pub(crate) takes: Vec<Take>,
    pub(crate) last: Vec<usize>,
}

/// Adds a take, which is an excess of its taker's.
///
/// # Errors
/// An allocation was refused.
fn add(flow: &mut Flow, taker: usize, payer: usize, amount: u128) -> Result<(), AllocError>
    requires { payer < length flow.old.last.items }
    ensures takes { OnOk result (flow.new.takes.items ≡ flow.old.takes.items
        ++ record {
          taker = taker;
          payer = payer;
          amount = amount;
          before = slice_index flow.old.last.items payer;
        } ∷ []) }
    ensures last { OnOk result (flow.new.last.items
        ≡ slice_set flow.old.last.items payer (length flow.old.takes.items + 1)) }
    ensures left { flow.new.left ≡ flow.old.left }
{
    let before = flow.last[payer];
    flow.takes.push(Take {
        taker,
        payer,
        amount,
        before,
    })?;
    flow.last[payer] = flow.takes.len();
    Ok(())
}

/// Lowers what a step has left by this amount.
pub(crate) fn lower(flow: &mut Flow, step: usize, amount: u128)
    requires there { step < length flow.old.left.items }
    requires enough { amount ≤ slice_index flow.old.left.items step }
    ensures left { flow.new.left.items
        ≡ slice_set flow.old.left.items step (slice_index flow.old.left.items step - amount) }
    ensures takes { flow.new.takes ≡ flow.old.takes }
    ensures last { flow.new.last ≡ flow.old.last }
{
    flow.left[step] -= amount;
}

/// Puts a take in the place of another one.
fn replace(flow: &mut Flow, i: usize, take: Take)
    requires { i < length flow.old.takes.items }
    ensures takes { flow.new.takes.items ≡ slice_set flow.old.takes.items i take }
    ensures last { flow.new.last ≡ flow.old.last }
    ensures left { flow.new.left ≡ flow.old.left }
{
    flow.takes[i] = take;
}

/// Takes this amount from a payer that has it left.
///
/// # Errors
/// An allocation was refused.
pub(crate) fn draw(
    steps: &[Step<'_>],
    flow: &mut Flow,
    taker: usize,
    payer: usize,
    amount: u128,
) -> Result<(), AllocError>
    requires flow { IsFlow steps.now flow.old 0 0 }
    requires can { CanTake steps.now taker payer }
    requires some { 0 < amount }
    requires enough { amount ≤ slice_index flow.old.left.items payer }
    ensures flow { OnOk result (IsFlow steps.now flow.new taker amount) }
    ensures takes { OnOk result ((i : ℕ) → i < length flow.old.takes.items
        → take_at flow.new.takes.items i ≡ take_at flow.old.takes.items i) }
    ensures longer { OnOk result (length flow.old.takes.items ≤ length flow.new.takes.items) }
    ensures left { OnOk result (flow.new.left.items
        ≡ slice_set flow.old.left.items payer (slice_index flow.old.left.items payer - amount)) }
    ensures below { OnOk result ((n : ℕ) → AreBelow n flow.old.takes.items → taker < n
        → AreBelow n flow.new.takes.items) }
    ensures inside { OnOk result ((set : ℕ → Bool) → IsTakenInside set flow.old.takes.items → set payer ≡ false
        → IsTakenInside set flow.new.takes.items) }
{
    lower(flow, payer, amount);
    add(flow, taker, payer, amount)?;
    Ok(())
}

/// Lets another step take this amount of a take.
///
/// # Errors
/// An allocation was refused.
pub(crate) fn hand_over(
    steps: &[Step<'_>],
    flow: &mut Flow,
    i: usize,
    taker: usize,
    amount: u128,
) -> Result<(), AllocError>
    requires there { i < length flow.old.takes.items }
    requires flow { IsFlow steps.now flow.old (take_at flow.old.takes.items i).taker amount }
    requires can { CanTake steps.now taker (take_at flow.old.takes.items i).payer }
    requires some { 0 < amount }
    requires enough { amount ≤ (take_at flow.old.takes.items i).amount }
    ensures flow { OnOk result (IsFlow steps.now flow.new taker amount) }
    ensures takes { OnOk result ((k : ℕ) → k < length flow.old.takes.items → k ≢ i
        → take_at flow.new.takes.items k ≡ take_at flow.old.takes.items k) }
    ensures longer { OnOk result (length flow.old.takes.items ≤ length flow.new.takes.items) }
    ensures left { OnOk result (flow.new.left.items ≡ flow.old.left.items) }
    ensures below { OnOk result ((n : ℕ) → AreBelow n flow.old.takes.items → taker < n
        → AreBelow n flow.new.takes.items) }
    ensures inside { OnOk result ((set : ℕ → Bool) → IsTakenInside set flow.old.takes.items
        → set (take_at flow.old.takes.items i).taker ≡ false → IsTakenInside set flow.new.takes.items) }
{
    let take = flow.takes[i];
    if take.amount == amount {
        replace(flow, i, Take { taker, ..take });
        return Ok(());
    }
    replace(
        flow,
        i,
        Take {
            amount: take.amount - amount,
            ..take
        },
    );
    add(flow, taker, take.payer, amount)?;
    Ok(())
}
