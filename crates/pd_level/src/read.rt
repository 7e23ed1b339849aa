//! What is read of one key of a list.
ghost use Rattle.def_format.specs.Limits.{process_limit};
ghost use Rattle.walk_keys.specs.Keys.{AreDigits, Ascending, count_base, digits, key_of};
ghost use Rattle.def_model.specs.Cuts.{FitsProcesses};
ghost use Rattle.def_model.specs.Predicates.{test_of};
ghost use Rattle.pd_pred.specs.Views.{predicate_view};
ghost use Rattle.std.specs.Prelude.{◌≡◌, ◌^◌, ◌<◌, ◌≤◌, ◌↔◌, ℕ, Contains, IsTrue, length, slice_index};

use super::list::KeyList;
use super::state::KeyState;
use def_format::PROCESS_LIMIT;
use pd_clock::{Computation, Cut};
use pd_pred::Pred;
use std::alloc::Global;
use walk_keys::Key;

/// The cut whose `n` counts are the digits of a key. It takes no memory.
pub(crate) fn cut_of<K: Key>(alloc: Global, key: K, n: usize) -> Cut
    requires room { n ≤ K.room }
    requires few { n ≤ process_limit }
    requires below { K.number key < count_base ^ n }
    ensures { result ≡ digits n (K.number key) }
{
    let mut counts = [0; PROCESS_LIMIT];
    for p in 0..n {
        counts[p] = key.digit(n, p);
    }
    Cut::new(alloc, &counts[..n]).unwrap()
}

/// Whether the predicate is true at the state of the cut whose `n` counts are the digits of a key.
pub(crate) fn holds_at<K: Key>(computation: &Computation<'_>, pred: &Pred, key: K, n: usize) -> bool
    requires room { n ≤ K.room }
    requires below { K.number key < count_base ^ n }
    requires fits { FitsProcesses computation.now.events (digits n (K.number key)) }
    ensures { result ≡ test_of computation.now (predicate_view pred.now) (digits n (K.number key)) }
{
    let state = KeyState::new(computation, key, n);
    pred.holds(&state)
}

/// How many of the ascending keys are below the bound.
fn count_below<K: Key>(keys: &KeyList<K>, bound: K) -> usize
    requires { Ascending keys.now }
    ensures within { result ≤ length keys.now }
    ensures below { (k : ℕ) → k < result → slice_index keys.now k < K.number bound }
    ensures rest { (k : ℕ) → result ≤ k → k < length keys.now → K.number bound ≤ slice_index keys.now k }
{
    let mut low = 0;
    let mut high = keys.len();
    while low < high {
        let middle = low + (high - low) / 2;
        if keys.get(middle).is_below(bound) {
            low = middle + 1;
        } else {
            high = middle;
        }
    }
    low
}

/// Whether one of the ascending keys is that of these counts. If there is a key, it has room for this many.
pub(crate) fn has<K: Key>(keys: &KeyList<K>, counts: &[u64]) -> bool
    requires room { 0 < length keys.now → length counts.now ≤ K.room }
    requires ascending { Ascending keys.now }
    ensures { IsTrue result ↔ (AreDigits counts.now × Contains keys.now (key_of counts.now)) }
{
    if keys.len() == 0 {
        return false;
    }
    match K::pack(counts) {
        Some(key) => {
            let i = count_below(keys, key);
            i < keys.len() && !key.is_below(keys.get(i))
        }
        None => false,
    }
}
