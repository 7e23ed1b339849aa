//! The lowest bound within which a closed set of steps reaches a target.
ghost use Rattle.wide_reach.specs.Bounds.{AreUnordered, IsLeastKey, IsLowestBound, Reaches};
ghost use Rattle.wide_reach.specs.Keys.{IsKeyFor, inside_of};
ghost use Rattle.std.specs.Prelude.{◌≡◌, ◌<◌, IfOk, MatchOption, length, map, min};

use super::key::{Key, OUTSIDE};
use super::sorted::in_order;
use std::alloc::{AllocError, Global};
use wide_flow::{Step, first_key};

/// The key, or `None` for that of the steps whose pasts aren't within the bound.
fn inside(key: Option<u32>) -> Option<u64>
    ensures { result ≡ inside_of key }
{
    match key {
        Some(key) if key < OUTSIDE => Some(u64::from(key)),
        _ => None,
    }
}

/// The least number such that some closed set of steps reaches the target, and the past of each of its steps is within
/// the bound and has this number or a lesser one by the key. There is none if no closed set of steps with pasts within
/// the bound reaches the target. It looks for one first key.
///
/// # Errors
/// An allocation was refused.
pub(crate) fn least_key(
    alloc: Global,
    steps: &[Step<'_>],
    bound: &[u64],
    key: Key,
    target: u128,
) -> Result<Option<u64>, AllocError>
    requires steps { AreUnordered (length bound.now) steps.now }
    requires key { IsKeyFor (length bound.now) key }
    requires some { 0 < target }
    ensures { IfOk result (λ found. MatchOption found (¬ Reaches steps.now target bound.now)
        (IsLeastKey steps.now target bound.now key)) }
{
    let sorted = in_order(alloc, steps, bound, key)?;
    let first = first_key(alloc, &sorted, bound.len(), target)?;
    Ok(inside(first))
}

/// The counts of a bound, each of them at most this height.
///
/// # Errors
/// An allocation was refused.
fn cut_off(alloc: Global, full: &[u64], height: u64) -> Result<Vec<u64>, AllocError>
    ensures { IfOk result (λ bound. bound.items ≡ map (λ count. min count height) full.now) }
{
    full.iter().map(|count| (*count).min(height)).collect(alloc)
}

/// The lowest of the bounds within the full one within which a closed set of steps reaches the target. `height` is its
/// greatest count.
///
/// # Errors
/// An allocation was refused.
fn lowest_of_height(
    alloc: Global,
    steps: &[Step<'_>],
    full: &[u64],
    height: u64,
    target: u128,
) -> Result<Vec<u64>, AllocError>
    requires steps { AreUnordered (length full.now) steps.now }
    requires height { IsLeastKey steps.now target full.now Key.Height height }
    requires some { 0 < target }
    ensures { IfOk result (λ bound. IsLowestBound steps.now target full.now bound.items) }
{
    let mut bound = cut_off(alloc, full, height)?;
    for process in 0..full.len() {
        let count = least_key(alloc, steps, &bound, Key::Count(process), target)?;
        let kept = bound[process];
        bound[process] = count.unwrap_or(kept);
    }
    Ok(bound)
}

/// The lowest of the bounds within the full one within which a closed set of steps reaches the target: the one with the
/// least greatest count, and of these the lexicographically first. It looks for one least key, and then for one for
/// each process.
///
/// # Errors
/// An allocation was refused.
pub(crate) fn lowest_bound(
    alloc: Global,
    steps: &[Step<'_>],
    full: &[u64],
    target: u128,
) -> Result<Option<Vec<u64>>, AllocError>
    requires steps { AreUnordered (length full.now) steps.now }
    requires some { 0 < target }
    ensures { IfOk result (λ found. MatchOption found (¬ Reaches steps.now target full.now)
        (λ bound. IsLowestBound steps.now target full.now bound.items)) }
{
    match least_key(alloc, steps, full, Key::Height, target)? {
        Some(height) => Ok(Some(lowest_of_height(alloc, steps, full, height, target)?)),
        None => Ok(None),
    }
}
