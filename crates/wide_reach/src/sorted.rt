//! Steps in the order of their keys.
ghost use Rattle.wide_reach.specs.Keys.{AreInOrder, AreKeyed, IsKeyFor, rank};
ghost use Rattle.std.specs.List.Sorted.{IsNonDecreasingBy, IsPermutation};
ghost use Rattle.wide_flow.specs.Steps.{step_at};
ghost use Rattle.std.specs.Prelude.{◌≡◌, ◌<◌, ℕ, IfOk, OnOk, length};

use super::key::{Key, keyed_step, rank_of};
use std::alloc::{AllocError, Global};
use wide_flow::Step;

/// The steps, each with the number of its past by a key, or with the one above all of these if the past isn't within
/// the bound.
///
/// # Errors
/// An allocation was refused.
fn keyed<'a>(
    alloc: Global,
    steps: &[Step<'a>],
    bound: &[u64],
    key: Key,
) -> Result<Vec<Step<'a>>, AllocError>
    requires one_each { (i : ℕ) → i < length steps.now → length (step_at steps.now i).past.now ≡ length bound.now }
    requires key { IsKeyFor (length bound.now) key }
    ensures { IfOk result (λ keyed. AreKeyed bound.now key steps.now keyed.items) }
{
    let mut keyed = Vec::new(alloc);
    for i in 0..steps.len() {
        keyed.push(keyed_step(&steps[i], bound, key))?;
    }
    Ok(keyed)
}

/// Puts steps in the order of their keys, and those with the same key in the order of their counts.
///
/// # Errors
/// An allocation was refused.
fn sort(steps: &mut Vec<Step<'_>>) -> Result<(), AllocError>
    ensures permutation { IsPermutation steps.old.items steps.new.items }
    ensures ascending { OnOk result (IsNonDecreasingBy rank steps.new.items) }
{
    steps.sort_by_key(|step| rank_of(step))
}

/// The steps in the order of the numbers of their pasts by a key. Those whose pasts aren't within the bound come last.
///
/// # Errors
/// An allocation was refused.
pub(crate) fn in_order<'a>(
    alloc: Global,
    steps: &[Step<'a>],
    bound: &[u64],
    key: Key,
) -> Result<Vec<Step<'a>>, AllocError>
    requires one_each { (i : ℕ) → i < length steps.now → length (step_at steps.now i).past.now ≡ length bound.now }
    requires key { IsKeyFor (length bound.now) key }
    ensures { IfOk result (λ sorted. AreInOrder bound.now key steps.now sorted.items) }
{
    let mut sorted = keyed(alloc, steps, bound, key)?;
    sort(&mut sorted)?;
    Ok(sorted)
}
