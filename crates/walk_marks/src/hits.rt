//! Which cuts of a whole level satisfy.
ghost use Rattle.walk_keys.specs.Words.{has_bit};
ghost use Rattle.walk_runs.specs.Levels.{IsWholeLevel};
ghost use Rattle.walk_marks.specs.RunPlaces.{run_at};
ghost use Rattle.walk_marks.specs.Skips.{HaveNoHits};
ghost use Rattle.walk_keys.specs.Neighbors.{cut_at};
ghost use Rattle.walk_runs.specs.WholeLevels.{rest_at};
ghost use Rattle.std.specs.Prelude.{◌≡◌, ◌+◌, ◌-◌, ◌<◌, ◌≤◌, ℕ, false, length};

use super::parents::first_of;
use super::run;
use super::skips::Skips;
use def_format::PROCESS_LIMIT;
use walk_keys::bits::{BITS, words};
use walk_keys::{Key, RunTest, SINGLE_LIMIT};
use walk_runs::Whole;

/// How many of the counts from `x` to `hi` are looked at together: all of them, but no more than a word has bits.
pub(crate) fn block(x: u64, hi: u64) -> u64
    requires { x ≤ hi }
    ensures some { 1 ≤ result }
    ensures few { result ≤ 64 }
    ensures high { x + result ≤ hi + 1 }
    ensures whole { result < 64 → x + result ≡ hi + 1 }
{
    if hi - x >= BITS - 1 { BITS } else { hi - x + 1 }
}

/// The bits of `n` neighboring cuts of run `i`, whose prefix is written into the row of counts.
fn mask<K: Key, T: RunTest>(
    level: &Whole<K>,
    test: &T,
    i: usize,
    x: u64,
    n: u64,
    counts: &mut [u64],
) -> u64
    requires level { IsWholeLevel (T.events test.now) level.now }
    requires within { i < length level.now.runs }
    requires some { 1 ≤ n }
    requires few { n ≤ 64 }
    requires low { (run_at level.now.runs i).lo ≤ x }
    requires high { x + n ≤ (run_at level.now.runs i).hi + 1 }
    requires room { level.now.processes ≤ length counts.old }
    ensures within { (j : ℕ) → j < n → has_bit result j ≡ T.test test.now (cut_at (run_at level.now.runs i).prefix (x
        + j)
        (rest_at level.now.number (run_at level.now.runs i) - (x + j))) }
    ensures beyond { (j : ℕ) → n ≤ j → has_bit result j ≡ false }
{
    level.limits();
    let y = run::rest(level, i) - x;
    run::read_prefix(level, i, counts);
    test.mask(first_of(counts, level.processes() - 2), x, y, n)
}

/// Which of `n` neighboring cuts of run `i` satisfy: bit `j` is that of the cut whose count of the last process but
/// one is `x + j`.
pub(crate) fn hits<K: Key, T: RunTest>(
    level: &Whole<K>,
    test: &T,
    skips: Skips<'_>,
    i: usize,
    x: u64,
    n: u64,
) -> u64
    requires level { IsWholeLevel (T.events test.now) level.now }
    requires skips { HaveNoHits (T.events test.now) (T.test test.now) level.now.runs skips }
    requires within { i < length level.now.runs }
    requires some { 1 ≤ n }
    requires few { n ≤ 64 }
    requires low { (run_at level.now.runs i).lo ≤ x }
    requires high { x + n ≤ (run_at level.now.runs i).hi + 1 }
    ensures within { (j : ℕ) → j < n → has_bit result j ≡ T.test test.now (cut_at (run_at level.now.runs i).prefix (x
        + j)
        (rest_at level.now.number (run_at level.now.runs i) - (x + j))) }
    ensures beyond { (j : ℕ) → n ≤ j → has_bit result j ≡ false }
{
    words(0);
    if skips.has(i) {
        return 0;
    }
    level.limits();
    if level.processes() <= SINGLE_LIMIT {
        let mut counts = [0; SINGLE_LIMIT];
        return mask(level, test, i, x, n, &mut counts);
    }
    let mut counts = [0; PROCESS_LIMIT];
    mask(level, test, i, x, n, &mut counts)
}
