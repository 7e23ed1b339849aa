//! The run with a number, in a whole level.
ghost use Rattle.walk_marks.specs.Marks.{KeysAscend};
ghost use Rattle.walk_marks.specs.RunPlaces.{key_of_run, run_at};
ghost use Rattle.std.specs.Prelude.{◌<◌, ◌≤◌, ℕ, length};

use super::run;
use walk_keys::Key;
use walk_runs::Whole;

/// The place of the first run from `low` on whose number isn't below `key`, if that is at most `high`.
fn search<K: Key>(level: &Whole<K>, key: K, low: usize, high: usize) -> usize
    requires ascending { KeysAscend level.now.runs }
    requires order { low ≤ high }
    requires within { high ≤ length level.now.runs }
    requires below { (i : ℕ) → i < low → key_of_run (run_at level.now.runs i) < K.number key }
    requires beyond { (i : ℕ) → high ≤ i → i < length level.now.runs
        → K.number key ≤ key_of_run (run_at level.now.runs i) }
    ensures within { result ≤ length level.now.runs }
    ensures below { (i : ℕ) → i < result → key_of_run (run_at level.now.runs i) < K.number key }
    ensures beyond { (i : ℕ) → result ≤ i → i < length level.now.runs
        → K.number key ≤ key_of_run (run_at level.now.runs i) }
{
    let mut low = low;
    let mut high = high;
    while low < high {
        let middle = low + (high - low) / 2;
        if run::key(level, middle).is_below(key) {
            low = middle + 1;
        } else {
            high = middle;
        }
    }
    low
}

/// The place of the first run whose number isn't below `key`. It is found fast if it is near the hint, or just after
/// it.
pub(crate) fn place<K: Key>(level: &Whole<K>, key: K, hint: usize) -> usize
    requires ascending { KeysAscend level.now.runs }
    ensures within { result ≤ length level.now.runs }
    ensures below { (i : ℕ) → i < result → key_of_run (run_at level.now.runs i) < K.number key }
    ensures beyond { (i : ℕ) → result ≤ i → i < length level.now.runs
        → K.number key ≤ key_of_run (run_at level.now.runs i) }
{
    let count = level.len();
    if hint >= count {
        return search(level, key, 0, count);
    }
    if !run::key(level, hint).is_below(key) {
        if hint == 0 || run::key(level, hint - 1).is_below(key) {
            return hint;
        }
        return search(level, key, 0, hint);
    }
    let mut low = hint + 1;
    while low < count && run::key(level, low).is_below(key) {
        let step = low - hint;
        if step >= count - low {
            return search(level, key, low, count);
        }
        if !run::key(level, low + step).is_below(key) {
            return search(level, key, low, low + step);
        }
        low += step;
    }
    low
}
