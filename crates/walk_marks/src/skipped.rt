//! The words of a level's runs.
ghost use Rattle.walk_marks.specs.RunPlaces.{run_at};
ghost use Rattle.walk_marks.specs.Skips.{HaveNoHits};
ghost use Rattle.def_model.specs.Predicates.{test_of};
ghost use Rattle.walk_marks.specs.SkippedRuns.{AreInAll, AreSkipped, IsSomeLevel, IsWordOf};
ghost use Rattle.walk_runs.specs.Levels.{WholeLevel};
ghost use Rattle.walk_tables.specs.Views.{CompiledView};
ghost use Rattle.std.specs.Prelude.{◌≡◌, ◌<◌, ◌≤◌, ℕ, IfOk, IfSome, List, length, slice_index, slice_index_or};

use super::asked::{BITS, asked};
use super::run;
use super::skips::Skips;
use super::skips_by_threads::{are_many, may_be_many, words_by_threads};
use def_format::PROCESS_LIMIT;
use std::alloc::{AllocError, Global};
use std::marker::Model;
use std::thread::Threads;
use walk_keys::Key;
use walk_keys::bits::{both, has, lowest};
use walk_runs::Whole;
use walk_tables::Compiled;

/// A word for each run of a whole level: bit `q` is set only if predicate `q` holds at no cut with the run's prefix.
/// The first 16 predicates have a bit. Beside the words stand the bits that all of them have.
#[derive(Drop)]
pub struct SkippedRuns {
    words: Vec<u16>,
    in_all: u64,
}

impl Model for SkippedRuns {
    ghost use Rattle.walk_marks.specs.SkippedRuns.{AreInAll};
    ghost use Rattle.std.specs.Prelude.{ℕ, List};

    ghost Value = { List ℕ };

    ghost view = { λ r. r.words.items };

    ghost invariant = { λ r. AreInAll r.words.items r.in_all };
}

/// Whether the level before has no run with the prefix of run `i` at the place that this one hints at.
pub(crate) fn is_born<K: Key>(before: &Whole<K>, level: &Whole<K>, i: usize) -> bool
    requires { i < length level.now.runs }
{
    let at = level.from(i);
    at >= before.len() || !run::has_prefix_of(before, at, level, i)
}

/// The word of the run with the prefix of run `i` in the level before, if that is at the place that run `i` hints at.
pub(crate) fn kept<K: Key>(
    _tests: &[Compiled<'_, '_>],
    before: &Whole<K>,
    skipped: &SkippedRuns,
    level: &Whole<K>,
    i: usize,
) -> Option<u16>
    requires before { IsSomeLevel before.now }
    requires level { IsSomeLevel level.now }
    requires processes { before.now.processes ≡ level.now.processes }
    requires skipped { AreSkipped _tests.now before.now skipped.now }
    requires within { i < length level.now.runs }
    ensures { IfSome result (IsWordOf _tests.now (run_at level.now.runs i).prefix) }
{
    before.limits();
    level.limits();
    let at = level.from(i);
    if at < before.len() && run::has_prefix_of(before, at, level, i) {
        return Some(skipped.word(at));
    }
    None
}

/// The word of run `i`: that of the run with its prefix in the level before, or one that is asked.
fn word_after<K: Key>(
    tests: &[Compiled<'_, '_>],
    before: &Whole<K>,
    skipped: &SkippedRuns,
    level: &Whole<K>,
    i: usize,
    counts: &mut [u64],
) -> u16
    requires before { IsSomeLevel before.now }
    requires level { IsSomeLevel level.now }
    requires processes { before.now.processes ≡ level.now.processes }
    requires skipped { AreSkipped tests.now before.now skipped.now }
    requires within { i < length level.now.runs }
    requires room { level.now.processes ≤ length counts.old }
    ensures { IsWordOf tests.now (run_at level.now.runs i).prefix result }
{
    match kept(tests, before, skipped, level, i) {
        Some(word) => word,
        None => asked(tests, level, i, counts),
    }
}

/// The words of the runs, one after the other.
fn words_in_turn<K: Key>(
    alloc: Global,
    tests: &[Compiled<'_, '_>],
    before: &Whole<K>,
    skipped: &SkippedRuns,
    level: &Whole<K>,
) -> Result<Vec<u16>, AllocError>
    requires before { IsSomeLevel before.now }
    requires level { IsSomeLevel level.now }
    requires processes { before.now.processes ≡ level.now.processes }
    requires skipped { AreSkipped tests.now before.now skipped.now }
    ensures { IfOk result (λ words. AreSkipped tests.now level.now words.items) }
{
    level.limits();
    let mut words = Vec::with_capacity(alloc, level.len())?;
    let mut counts = [0; PROCESS_LIMIT];
    for i in 0..level.len() {
        words.push(word_after(tests, before, skipped, level, i, &mut counts))?;
    }
    Ok(words)
}

/// The bits that all words have, of those that a word has room for.
fn common(words: &[u16]) -> u64
    ensures { AreInAll words.now result }
{
    let mut bits = lowest(BITS as u64);
    for i in 0..words.len() {
        bits = both(bits, u64::from(words[i]));
    }
    bits
}

impl SkippedRuns {
    /// The runs that are skipped by these words.
    fn new(words: Vec<u16>) -> SkippedRuns
        ensures { result ≡ words.items }
    {
        let in_all = common(&words);
        SkippedRuns { words, in_all }
    }

    /// The word of run `i`.
    fn word(&self, i: usize) -> u16
        requires { i < length self.now }
        ensures { result ≡ slice_index self.now i }
    {
        self.words[i]
    }

    /// The skipped of a level, for which each run is asked.
    ///
    /// # Errors
    /// An allocation was refused.
    pub fn first<K: Key>(
        alloc: Global,
        tests: &[Compiled<'_, '_>],
        level: &Whole<K>,
    ) -> Result<SkippedRuns, AllocError>
        requires { IsSomeLevel level.now }
        ensures { IfOk result (AreSkipped tests.now level.now) }
    {
        level.limits();
        let mut words = Vec::with_capacity(alloc, level.len())?;
        let mut counts = [0; PROCESS_LIMIT];
        for i in 0..level.len() {
            words.push(asked(tests, level, i, &mut counts))?;
        }
        Ok(SkippedRuns::new(words))
    }

    /// The skipped of the next level, from those of a level. Only the runs with a new prefix are asked: by at most
    /// this many threads, if they are many.
    ///
    /// # Errors
    /// An allocation was refused.
    pub fn next<R: Threads + Sync, K: Key + Sync>(
        rt: &R,
        threads: usize,
        alloc: Global,
        tests: &[Compiled<'_, '_>],
        before: &Whole<K>,
        skipped: &SkippedRuns,
        level: &Whole<K>,
    ) -> Result<SkippedRuns, AllocError>
        requires before { IsSomeLevel before.now }
        requires level { IsSomeLevel level.now }
        requires processes { before.now.processes ≡ level.now.processes }
        requires skipped { AreSkipped tests.now before.now skipped.now }
        ensures { IfOk result (AreSkipped tests.now level.now) }
    {
        if threads > 1 && may_be_many(tests, level) {
            if are_many(tests, before, level) {
                let words = words_by_threads(rt, threads, alloc, tests, before, skipped, level)?;
                return Ok(SkippedRuns::new(words));
            }
        }
        let words = words_in_turn(alloc, tests, before, skipped, level)?;
        Ok(SkippedRuns::new(words))
    }

    /// The runs that predicate `q` needn't be evaluated at. From predicate 16 on that is none.
    pub fn of(&self, q: usize) -> Skips<'_>
        ensures { (tests : List CompiledView) (test : CompiledView) (level : WholeLevel)
            → AreSkipped tests level self.now → q < length tests
            → HaveNoHits (slice_index_or tests q test).recorded.events
            (test_of (slice_index_or tests q test).recorded (slice_index_or tests q test).predicate) level.runs
            result }
    {
        if q < BITS {
            return Skips::new(&self.words, q as u64, has(self.in_all, q as u64));
        }
        Skips::none()
    }
}
