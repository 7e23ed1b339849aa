//! The word of one run.
ghost use Rattle.walk_marks.specs.RunPlaces.{run_at};
ghost use Rattle.walk_marks.specs.SkippedRuns.{bit_limit, HoldsNowhere, IsSomeLevel, IsWordOf};
ghost use Rattle.walk_tables.specs.Views.{CompiledView};
ghost use Rattle.std.specs.Prelude.{◌≡◌, ◌+◌, ◌-◌, ◌<◌, ◌≤◌, length, slice_index_or};

use super::run::write_prefix;
use def_format::PROCESS_LIMIT;
use walk_keys::{Key, SINGLE_LIMIT};
use walk_runs::Whole;
use walk_tables::Compiled;

/// How many predicates have a bit: the first ones.
pub(crate) const BITS: usize = 16;

/// 1 if predicate `q` holds at no cut with this prefix, as far as its tables know, and else 0.
fn skip_bit(tests: &[Compiled<'_, '_>], prefix: &[u64], q: usize) -> u16
    requires { q < length tests.now }
    ensures bit { result ≤ 1 }
    ensures nowhere { result ≡ 1 → (test : CompiledView) → HoldsNowhere (slice_index_or tests.now q test) prefix.now }
{
    if tests[q].may(prefix) { 0 } else { 1 }
}

/// How many predicates are asked: those with a bit.
fn asked_of(tests: &[Compiled<'_, '_>]) -> usize
    ensures few { result ≤ bit_limit }
    ensures within { result ≤ length tests.now }
    ensures all { result < bit_limit → result ≡ length tests.now }
{
    if tests.len() < BITS {
        tests.len()
    } else {
        BITS
    }
}

/// The word of a run with this prefix.
fn word_of(tests: &[Compiled<'_, '_>], prefix: &[u64]) -> u16
    ensures { IsWordOf tests.now prefix.now result }
{
    let n = asked_of(tests);
    let mut word: u16 = 0;
    for k in 0..n {
        word = word * 2 + skip_bit(tests, prefix, n - 1 - k);
    }
    word
}

/// The word of run `i`, for which each predicate is asked. The run's prefix is written into the row of counts.
pub(crate) fn asked<K: Key>(
    tests: &[Compiled<'_, '_>],
    level: &Whole<K>,
    i: usize,
    counts: &mut [u64],
) -> u16
    requires level { IsSomeLevel level.now }
    requires within { i < length level.now.runs }
    requires room { level.now.processes ≤ length counts.old }
    ensures { IsWordOf tests.now (run_at level.now.runs i).prefix result }
{
    level.limits();
    let (prefix, _others) = counts.split_at_mut(level.processes() - 2);
    write_prefix(level, i, prefix);
    word_of(tests, prefix)
}

/// The same, with a row that has room for the processes.
pub(crate) fn asked_once<K: Key>(tests: &[Compiled<'_, '_>], level: &Whole<K>, i: usize) -> u16
    requires level { IsSomeLevel level.now }
    requires within { i < length level.now.runs }
    ensures { IsWordOf tests.now (run_at level.now.runs i).prefix result }
{
    level.limits();
    if level.processes() <= SINGLE_LIMIT {
        return asked(tests, level, i, &mut [0; SINGLE_LIMIT]);
    }
    asked(tests, level, i, &mut [0; PROCESS_LIMIT])
}
