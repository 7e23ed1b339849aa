//! The words of a level's runs by several threads.
ghost use Rattle.walk_marks.specs.SkippedRuns.{AreSkipped, IsSomeLevel, IsWordOfRun};
ghost use Rattle.std.specs.Prelude.{◌≡◌, ◌<◌, IfOk, length};

use super::asked::asked_once;
use super::skipped::{SkippedRuns, is_born, kept};
use std::alloc::{AllocError, Global};
use std::thread::Threads;
use walk_keys::{Key, values_of};
use walk_runs::Whole;
use walk_tables::Compiled;

/// How few runs may be shared.
const SHARED_RUNS: usize = 128;

/// From this many comparisons on threads share them: a millisecond of work, where a thread takes tens of microseconds
/// to start.
const SHARED_COMPARISONS: u64 = 200_000;

/// How many comparisons the predicates have together, if they are at most the greatest `u64`.
fn weight(tests: &[Compiled<'_, '_>]) -> u64 {
    let mut sum: u64 = 0;
    for i in 0..tests.len() {
        sum = sum.saturating_add(tests[i].comparisons());
    }
    sum
}

/// Whether the runs of the level would be worth several threads, if all of them had a new prefix.
pub(crate) fn may_be_many<K: Key>(tests: &[Compiled<'_, '_>], level: &Whole<K>) -> bool {
    let runs = level.len();
    runs >= SHARED_RUNS && weight(tests).saturating_mul(runs as u64) >= SHARED_COMPARISONS
}

/// Whether those with a new prefix are: each of them asks for all comparisons.
pub(crate) fn are_many<K: Key>(
    tests: &[Compiled<'_, '_>],
    before: &Whole<K>,
    level: &Whole<K>,
) -> bool {
    let mut born: u64 = 0;
    for i in 0..level.len() {
        if is_born(before, level, i) {
            born = born.saturating_add(1);
        }
    }
    weight(tests).saturating_mul(born) >= SHARED_COMPARISONS
}

/// The word of run `i`: that of the run with its prefix in the level before, or one that is asked.
fn word_there<K: Key>(
    tests: &[Compiled<'_, '_>],
    before: &Whole<K>,
    skipped: &SkippedRuns,
    level: &Whole<K>,
    i: usize,
) -> u16
    requires before { IsSomeLevel before.now }
    requires level { IsSomeLevel level.now }
    requires processes { before.now.processes ≡ level.now.processes }
    requires skipped { AreSkipped tests.now before.now skipped.now }
    requires within { i < length level.now.runs }
    ensures { IsWordOfRun tests.now level.now i result }
{
    match kept(tests, before, skipped, level, i) {
        Some(word) => word,
        None => asked_once(tests, level, i),
    }
}

/// The words of the runs, by at most this many threads.
pub(crate) fn words_by_threads<R: Threads + Sync, K: Key + Sync>(
    rt: &R,
    threads: usize,
    alloc: Global,
    tests: &[Compiled<'_, '_>],
    before: &Whole<K>,
    skipped: &SkippedRuns,
    level: &Whole<K>,
) -> Result<Vec<u16>, AllocError>
    requires before { IsSomeLevel before.now }
    requires level { IsSomeLevel level.now }
    requires processes { before.now.processes ≡ level.now.processes }
    requires skipped { AreSkipped tests.now before.now skipped.now }
    ensures { IfOk result (λ words. AreSkipped tests.now level.now words.items) }
{
    let words = values_of(
        rt,
        threads,
        alloc,
        level.len(),
        &|i: usize| -> u16
            requires { IsSomeLevel before.now × IsSomeLevel level.now
                × (before.now.processes ≡ level.now.processes)
                × AreSkipped tests.now before.now skipped.now
                × (i < length level.now.runs) }
            ensures { IsWordOfRun tests.entry.now level.entry.now i result }
        { word_there(tests, before, skipped, level, i) },
    )?;
    Ok(words)
}
