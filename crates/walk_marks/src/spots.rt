//! Where the words of a level's marks begin.
ghost use Rattle.walk_marks.specs.Marks.{last_word};
ghost use Rattle.walk_marks.specs.RunPlaces.{run_at};
ghost use Rattle.walk_marks.specs.Spots.{AreSpots, HasSpots, spot_at};
ghost use Rattle.std.specs.Prelude.{◌≡◌, ◌+◌, ◌<◌, ◌≤◌, ℕ, suc, IfOk, length};

use super::run;
use std::alloc::{AllocError, Global};
use walk_keys::Key;
use walk_keys::bits::BITS;
use walk_runs::Whole;

/// Where a word begins: at the cut of a run with a count of the last process but one.
#[derive(Clone, Copy, Drop)]
pub(crate) struct Spot {
    /// The run, by its place from 0.
    pub run: usize,
    /// The count.
    pub x: u64,
}

/// Adds the spots of a run.
///
/// # Errors
/// An allocation was refused.
fn push_spots<K: Key>(level: &Whole<K>, i: usize, spots: &mut Vec<Spot>) -> Result<(), AllocError>
    requires within { i < length level.now.runs }
    requires some { (run_at level.now.runs i).lo ≤ (run_at level.now.runs i).hi }
    ensures more { IfOk result (λ _. length spots.new.items ≡ length spots.old.items + suc (last_word (run_at
        level.now.runs i))) }
    ensures others { IfOk result (λ _. (k : ℕ) → k < length spots.old.items
        → spot_at spots.new.items k ≡ spot_at spots.old.items k) }
    ensures run { IfOk result (λ _. HasSpots level.now.runs i spots.new.items (length spots.old.items)) }
{
    let lo = run::lo(level, i);
    let hi = run::hi(level, i);
    for b in 0..(hi - lo) / BITS + 1 {
        let x = lo + b * BITS;
        spots.push(Spot { run: i, x })?;
    }
    Ok(())
}

/// A spot for each word of the marks of a level, and the index of the first one of each run.
///
/// # Errors
/// An allocation was refused.
pub(crate) fn spots<K: Key>(
    alloc: Global,
    level: &Whole<K>,
) -> Result<(Vec<usize>, Vec<Spot>), AllocError>
    requires { (i : ℕ) → i < length level.now.runs → (run_at level.now.runs i).lo ≤ (run_at level.now.runs i).hi }
    ensures { IfOk result (λ found. AreSpots level.now.runs found.0.items found.1.items) }
{
    let mut first = Vec::with_capacity(alloc, level.len())?;
    let mut spots = Vec::with_capacity(alloc, level.len())?;
    for i in 0..level.len() {
        first.push(spots.len())?;
        push_spots(level, i, &mut spots)?;
    }
    Ok((first, spots))
}
