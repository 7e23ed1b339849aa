//! The marks of the cuts with one event less.
ghost use Rattle.walk_keys.specs.Words.{has_bit};
ghost use Rattle.walk_marks.specs.Marks.{HasMark, HasOtherMark, HasOwnMark, IsShaped, KeysAscend};
ghost use Rattle.walk_marks.specs.RunPlaces.{key_of_run, run_at};
ghost use Rattle.std.specs.Prelude.{◌≡◌, ◌+◌, ◌<◌, ◌≤◌, ◌⊎◌, ◌↔◌, ℕ, IfSome, IsTrue, None, false, length, take};

use super::find::place;
use super::marks::Marks;
use super::run;
use walk_keys::Key;
use walk_keys::bits::{both, either, lowest, up, words};
use walk_runs::Whole;

/// The run with this number. The place where it is found, or would stand, is kept as the hint for the next look-up.
fn find<K: Key>(level: &Whole<K>, key: K, places: &mut [usize], slot: usize) -> Option<usize>
    requires ascending { KeysAscend level.now.runs }
    requires kept { slot < length places.old }
    ensures some { IfSome result (λ i. (i < length level.now.runs)
        × (key_of_run (run_at level.now.runs i) ≡ K.number key)) }
    ensures none { result ≡ None → (i : ℕ) → i < length level.now.runs
        → ¬ (key_of_run (run_at level.now.runs i) ≡ K.number key) }
{
    let i = place(level, key, places[slot]);
    places[slot] = i;
    if i < level.len() && run::key(level, i).is_same(key) {
        return Some(i);
    }
    None
}

/// The run with this number: at the place of the hint, or found.
fn find_near<K: Key>(level: &Whole<K>, key: K, hint: usize) -> Option<usize>
    requires ascending { KeysAscend level.now.runs }
    ensures some { IfSome result (λ i. (i < length level.now.runs)
        × (key_of_run (run_at level.now.runs i) ≡ K.number key)) }
    ensures none { result ≡ None → (i : ℕ) → i < length level.now.runs
        → ¬ (key_of_run (run_at level.now.runs i) ≡ K.number key) }
{
    if hint < level.len() && run::key(level, hint).is_same(key) {
        return Some(hint);
    }
    let i = place(level, key, hint);
    if i < level.len() && run::key(level, i).is_same(key) {
        return Some(i);
    }
    None
}

/// The marks of 64 neighboring cuts of the run with this number.
fn window_of<K: Key>(
    level: &Whole<K>,
    marks: &Marks,
    key: K,
    x: u64,
    places: &mut [usize],
    slot: usize,
) -> u64
    requires ascending { KeysAscend level.now.runs }
    requires shape { IsShaped level.now.runs marks.now }
    requires kept { slot < length places.old }
    ensures { (j : ℕ) → j < 64 → IsTrue (has_bit result j) ↔ HasMark level.now.runs marks.now (K.number key) (x + j) }
{
    words(0);
    match find(level, key, places, slot) {
        Some(i) => marks.window(level, i, x),
        None => 0,
    }
}

/// Of 64 neighboring counts of the last process but one, those at which the run with this number has a mark, or at
/// one less. The run may stand at the place of the hint.
fn own_window<K: Key>(level: &Whole<K>, marks: &Marks, key: K, x: u64, hint: usize) -> u64
    requires ascending { KeysAscend level.now.runs }
    requires shape { IsShaped level.now.runs marks.now }
    ensures { (j : ℕ) → j < 64 → IsTrue (has_bit result j)
        ↔ HasOwnMark level.now.runs marks.now (K.number key) (x + j) }
{
    words(0);
    match find_near(level, key, hint) {
        Some(i) => {
            let same = marks.window(level, i, x);
            let less = if x == 0 {
                up(same, 1)
            } else {
                marks.window(level, i, x - 1)
            };
            either(less, same)
        },
        None => 0,
    }
}

/// The bits, and the marks of the runs of the level before whose prefix has one event less than that of run `i`.
fn with_others<K: Key>(
    before: &Whole<K>,
    marks: &Marks,
    level: &Whole<K>,
    i: usize,
    x: u64,
    n: u64,
    own: u64,
    places: &mut [usize],
) -> u64
    requires ascending { KeysAscend before.now.runs }
    requires shape { IsShaped before.now.runs marks.now }
    requires within { i < length level.now.runs }
    requires few { n ≤ 64 }
    requires processes { length (run_at level.now.runs i).prefix + 2 ≡ level.now.processes }
    requires kept { level.now.processes ≤ length places.old }
    requires narrow { (j : ℕ) → n ≤ j → has_bit own j ≡ false }
    ensures bits { (j : ℕ) → j < n → IsTrue (has_bit result j)
        ↔ (IsTrue (has_bit own j)
        ⊎ HasOtherMark before.now.runs marks.now (key_of_run (run_at level.now.runs i))
        (run_at level.now.runs i).prefix (length (run_at level.now.runs i).prefix) (x + j)) }
    ensures beyond { (j : ℕ) → n ≤ j → has_bit result j ≡ false }
{
    level.limits();
    let processes = level.processes();
    let key = run::key(level, i);
    let wanted = lowest(n);
    let mut found = own;
    for p in 0..processes - 2 {
        if found == wanted {
            return found;
        }
        let count = key.digit(processes, p);
        if count > 0 {
            let parent = key.one_less(processes, p);
            found = either(
                found,
                both(window_of(before, marks, parent, x, places, p), wanted),
            );
        }
    }
    found
}

/// The first counts of a row.
pub(crate) fn first_of(counts: &[u64], n: usize) -> &[u64]
    requires { n ≤ length counts.now }
    ensures { result.now ≡ take n counts.now }
{
    &counts[..n]
}

/// The cuts of run `i` of a level with a marked cut of one event less in the level before: bit `j` is that of the
/// cut whose
/// count of the last process but one is `x + j`, for `j` below `n`.
pub(crate) fn parents<K: Key>(
    before: &Whole<K>,
    marks: &Marks,
    level: &Whole<K>,
    i: usize,
    x: u64,
    n: u64,
    places: &mut [usize],
) -> u64
    requires ascending { KeysAscend before.now.runs }
    requires shape { IsShaped before.now.runs marks.now }
    requires within { i < length level.now.runs }
    requires few { n ≤ 64 }
    requires processes { length (run_at level.now.runs i).prefix + 2 ≡ level.now.processes }
    requires kept { level.now.processes ≤ length places.old }
    ensures bits { (j : ℕ) → j < n → IsTrue (has_bit result j)
        ↔ (HasOwnMark before.now.runs marks.now (key_of_run (run_at level.now.runs i)) (x + j)
        ⊎ HasOtherMark before.now.runs marks.now (key_of_run (run_at level.now.runs i))
        (run_at level.now.runs i).prefix (length (run_at level.now.runs i).prefix) (x + j)) }
    ensures beyond { (j : ℕ) → n ≤ j → has_bit result j ≡ false }
{
    level.limits();
    let key = run::key(level, i);
    let wanted = lowest(n);
    let own = both(own_window(before, marks, key, x, level.from(i)), wanted);
    if own == wanted {
        return own;
    }
    with_others(before, marks, level, i, x, n, own, places)
}
