//! The lowest cut at which a sum reaches a total.
ghost use Rattle.wide_reach.specs.Bounds.{IsFull};
ghost use Rattle.wide_reach.specs.Reaches.{HasNoneWith, HasTotal, IsLowestWith};
ghost use Rattle.wide_slice.specs.Slices.{IsSlice};
ghost use Rattle.wide_slice.specs.Values.{AreValues, value_limit};
ghost use Rattle.std.specs.Prelude.{◌≡◌, ◌≤◌, ℕ, IfOk, List, MatchOption, false, true, unsigned_abs};

use super::bound::{least_key, lowest_bound};
use super::key::Key;
use super::sum::lack;
use pd_clock::{Computation, Cut};
use std::alloc::{AllocError, Global};
use wide_conjunctions::GoodCounts;
use wide_slice::{Slice, steps_of};

/// How many events each process has.
///
/// # Errors
/// An allocation was refused.
fn full_counts(alloc: Global, computation: &Computation<'_>) -> Result<Vec<u64>, AllocError>
    ensures { IfOk result (λ full. IsFull computation.now.events full.items) }
{
    let mut full = Vec::new(alloc);
    for p in 0..computation.processes() {
        full.push(computation.events(p))?;
    }
    Ok(full)
}

/// Whether a sum of these values reaches the total at some cut of the slice. It makes the steps of the slice, and looks
/// for one first key of them.
///
/// # Errors
/// An allocation was refused.
pub fn some_reaches<G: GoodCounts>(
    alloc: Global,
    computation: &Computation<'_>,
    wanted: &G,
    slice: &Slice,
    values: &[Vec<i128>],
    total: i128,
) -> Result<bool, AllocError>
    requires slice { IsSlice computation.now.events (G.good wanted.now) slice.now }
    requires values { AreValues computation.now.events values.now }
    requires small { unsigned_abs total ≤ value_limit }
    ensures some { IfOk result (λ found. found ≡ true
        → (cut : List ℕ) × HasTotal computation.now.events (G.good wanted.now) values.now total cut) }
    ensures none { IfOk result (λ found. found ≡ false
        → HasNoneWith computation.now.events (G.good wanted.now) values.now total) }
{
    computation.limits();
    match lack(values, slice.least(), total) {
        Some(lack) => {
            let steps = steps_of(alloc, computation, wanted, slice, values)?;
            let full = full_counts(alloc, computation)?;
            let height = least_key(alloc, &steps, &full, Key::Height, lack)?;
            Ok(height.is_some())
        }
        None => Ok(true),
    }
}

/// The lowest cut of the slice at which a sum of these values reaches the total: the one with the least greatest count,
/// and of these the lexicographically first. It makes the steps of the slice once, and looks for a first key of them
/// once, and then once for each process.
///
/// # Errors
/// An allocation was refused.
pub fn lowest_with<G: GoodCounts>(
    alloc: Global,
    computation: &Computation<'_>,
    wanted: &G,
    slice: &Slice,
    values: &[Vec<i128>],
    total: i128,
) -> Result<Option<Cut>, AllocError>
    requires slice { IsSlice computation.now.events (G.good wanted.now) slice.now }
    requires values { AreValues computation.now.events values.now }
    requires small { unsigned_abs total ≤ value_limit }
    ensures { IfOk result (λ found. MatchOption found
        (HasNoneWith computation.now.events (G.good wanted.now) values.now total)
        (IsLowestWith computation.now.events (G.good wanted.now) values.now total)) }
{
    computation.limits();
    match lack(values, slice.least(), total) {
        Some(lack) => {
            let steps = steps_of(alloc, computation, wanted, slice, values)?;
            let full = full_counts(alloc, computation)?;
            match lowest_bound(alloc, &steps, &full, lack)? {
                Some(bound) => Ok(Some(Cut::new(alloc, &bound)?)),
                None => Ok(None),
            }
        }
        None => Ok(Some(Cut::new(alloc, slice.least())?)),
    }
}
