//! Which of some ascending keys come to lie between two of them once an event is added.
ghost use Rattle.walk_keys.specs.Keys.{AreKeys, count_base};
ghost use Rattle.pd_level.specs.MoreCuts.{HaveRoom};
ghost use Rattle.std.specs.Prelude.{◌+◌, ◌-◌, ◌^◌, ◌<◌, ◌≤◌, ℕ, length, slice_index};

use super::list::KeyList;
use walk_keys::Key;

/// The index of the first of the keys, of `n` counts each, from the index `start` on that is not below the bound once
/// an event of process `p` is added.
fn reach<K: Key>(keys: &KeyList<K>, n: usize, p: usize, bound: K, start: usize) -> usize
    requires few { n ≤ K.room }
    requires process { p < n }
    requires keys { AreKeys n keys.now }
    requires room { HaveRoom n p keys.now }
    requires start { start ≤ length keys.now }
    ensures within { (start ≤ result) × (result ≤ length keys.now) }
    ensures below { (k : ℕ) → start ≤ k → k < result
        → slice_index keys.now k + count_base ^ (n - 1 - p) < K.number bound }
    ensures rest { (k : ℕ) → result ≤ k → k < length keys.now
        → K.number bound ≤ slice_index keys.now k + count_base ^ (n - 1 - p) }
{
    let mut low = start;
    let mut high = keys.len();
    while low < high {
        let middle = low + (high - low) / 2;
        if keys.get(middle).one_more(n, p).is_below(bound) {
            low = middle + 1;
        } else {
            high = middle;
        }
    }
    low
}

/// The index of the first of the keys, of `n` counts each, that is not below the one at `from` once an event of process
/// `p` is added. If `from` is 0, each of them counts as such.
pub(crate) fn range_start<K: Key>(keys: &KeyList<K>, n: usize, p: usize, from: usize) -> usize
    requires few { n ≤ K.room }
    requires process { p < n }
    requires keys { AreKeys n keys.now }
    requires room { HaveRoom n p keys.now }
    requires from { 0 < from → from < length keys.now }
    ensures within { result ≤ length keys.now }
    ensures below { (k : ℕ) → k < result → (0 < from)
        × (slice_index keys.now k + count_base ^ (n - 1 - p) < slice_index keys.now from) }
    ensures rest { (k : ℕ) → result ≤ k → k < length keys.now → 0 < from
        → slice_index keys.now from ≤ slice_index keys.now k + count_base ^ (n - 1 - p) }
{
    if from == 0 {
        return 0;
    }
    reach(keys, n, p, keys.get(from), 0)
}

/// The index after the last of the keys, of `n` counts each, from `start` on that is below the one at `to` once an
/// event of process `p` is added. If `to` is past the end, each of them counts as such.
pub(crate) fn range_end<K: Key>(
    keys: &KeyList<K>,
    n: usize,
    p: usize,
    start: usize,
    to: usize,
) -> usize
    requires few { n ≤ K.room }
    requires process { p < n }
    requires keys { AreKeys n keys.now }
    requires room { HaveRoom n p keys.now }
    requires start { start ≤ length keys.now }
    ensures within { (start ≤ result) × (result ≤ length keys.now) }
    ensures below { (k : ℕ) → start ≤ k → k < result → to < length keys.now
        → slice_index keys.now k + count_base ^ (n - 1 - p) < slice_index keys.now to }
    ensures rest { (k : ℕ) → result ≤ k → k < length keys.now
        → (to < length keys.now)
        × (slice_index keys.now to ≤ slice_index keys.now k + count_base ^ (n - 1 - p)) }
{
    if to >= keys.len() {
        return keys.len();
    }
    reach(keys, n, p, keys.get(to), start)
}
