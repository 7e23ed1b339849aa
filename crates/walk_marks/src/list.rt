//! The numbers of the marked cuts.
ghost use Rattle.walk_keys.specs.Keys.{AreDigits, count_base, key_of};
ghost use Rattle.walk_marks.specs.Marks.{bits_list, cut_with, marked_keys};
ghost use Rattle.walk_marks.specs.RunPlaces.{run_at};
ghost use Rattle.walk_runs.specs.WholeLevels.{rest_at};
ghost use Rattle.std.specs.Prelude.{◌≡◌, ◌+◌, ◌-◌, ◌/◌, ◌<◌, ◌≤◌, ◌++◌, ℕ, suc, IfOk, length, map};

use super::run;
use std::alloc::AllocError;
use walk_keys::Key;
use walk_keys::bits::{BITS, has};
use walk_runs::Whole;

/// The number of the cut of run `i` with this count of the last process but one.
fn cut_key<K: Key>(level: &Whole<K>, i: usize, x: u64) -> K
    requires within { i < length level.now.runs }
    requires high { x ≤ rest_at level.now.number (run_at level.now.runs i) }
    requires few { length (run_at level.now.runs i).prefix + 2 ≤ K.room }
    requires digits { AreDigits (cut_with level.now.number (run_at level.now.runs i) x) }
    ensures { K.number result ≡ key_of (cut_with level.now.number (run_at level.now.runs i) x) }
{
    run::key(level, i)
        .without_two()
        .with_two(x, run::rest(level, i) - x)
}

/// Adds the numbers of the marked cuts of a run, whose first word has this index.
///
/// # Errors
/// An allocation was refused.
pub(crate) fn push_marked<K: Key>(
    all: &[u64],
    level: &Whole<K>,
    i: usize,
    start: usize,
    keys: &mut Vec<K>,
) -> Result<(), AllocError>
    requires within { i < length level.now.runs }
    requires some { (run_at level.now.runs i).lo ≤ (run_at level.now.runs i).hi }
    requires small { (run_at level.now.runs i).hi < count_base }
    requires room { start + ((run_at level.now.runs i).hi - (run_at level.now.runs i).lo) / 64 < length all.now }
    requires high { (run_at level.now.runs i).hi ≤ rest_at level.now.number (run_at level.now.runs i) }
    requires few { length (run_at level.now.runs i).prefix + 2 ≤ K.room }
    requires digits { (x : ℕ) → (run_at level.now.runs i).lo ≤ x → x ≤ (run_at level.now.runs i).hi
        → AreDigits (cut_with level.now.number (run_at level.now.runs i) x) }
    ensures { IfOk result (λ _. map K.number keys.new.items ≡ map K.number keys.old.items
        ++ marked_keys level.now.number (run_at level.now.runs i) (bits_list all.now start 0
        (suc ((run_at level.now.runs i).hi - (run_at level.now.runs i).lo)))) }
{
    let lo = run::lo(level, i);
    let hi = run::hi(level, i);
    for d in 0..hi - lo + 1 {
        if has(all[start + (d / BITS) as usize], d % BITS) {
            keys.push(cut_key(level, i, lo + d))?;
        }
    }
    Ok(())
}
