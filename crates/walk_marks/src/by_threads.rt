//! A whole level looked at by several threads.
ghost use Rattle.walk_marks.specs.Marks.{IsBefore, IsMarking};
ghost use Rattle.walk_marks.specs.RunPlaces.{run_at};
ghost use Rattle.walk_marks.specs.Skips.{HaveNoHits};
ghost use Rattle.walk_marks.specs.Spots.{IsHitIn, IsSpot, IsWordOf, spot_at};
ghost use Rattle.def_model.specs.Answers.{IsFirstSatisfying};
ghost use Rattle.def_model.specs.Cuts.{IsOfLevel};
ghost use Rattle.def_model.specs.Walks.{NoneBelow};
ghost use Rattle.walk_runs.specs.Levels.{IsWholeLevel};
ghost use Rattle.std.specs.Prelude.{◌≡◌, ◌+◌, ◌<◌, ◌≤◌, ℕ, IfNone, IfOk, IfSome, List, None, false, length, slice_index, slice_index_or, true};

use super::hit::{cut_in, hit_in};
use super::hits::block;
use super::mark::{Before, avoiding};
use super::marks::{Marks, bits};
use super::run;
use super::skips::Skips;
use super::spots::{Spot, spots};
use def_format::PROCESS_LIMIT;
use pd_clock::Cut;
use std::alloc::{AllocError, Global};
use std::thread::Threads;
use walk_keys::{Key, RunTest, SINGLE_LIMIT, values_of};
use walk_runs::Whole;

/// The least count of the last process but one in run `i` whose cut satisfies.
fn hit_of<K: Key, T: RunTest>(level: &Whole<K>, test: &T, skips: Skips<'_>, i: usize) -> Option<u64>
    requires level { IsWholeLevel (T.events test.now) level.now }
    requires skips { HaveNoHits (T.events test.now) (T.test test.now) level.now.runs skips }
    requires within { i < length level.now.runs }
    ensures { IsHitIn (T.test test.now) level.now.number (run_at level.now.runs i) result }
{
    hit_in(level, test, skips, i)
}

/// The same for each run, by at most this many threads.
fn hits_in_runs<R: Threads + Sync, K: Key + Sync, T: RunTest + Sync>(
    rt: &R,
    threads: usize,
    alloc: Global,
    level: &Whole<K>,
    test: &T,
    skips: Skips<'_>,
) -> Result<Vec<Option<u64>>, AllocError>
    requires level { IsWholeLevel (T.events test.now) level.now }
    requires skips { HaveNoHits (T.events test.now) (T.test test.now) level.now.runs skips }
    ensures one_each { IfOk result (λ found. length found.items ≡ length level.now.runs) }
    ensures hits { IfOk result (λ found. (i : ℕ) → i < length level.now.runs
        → IsHitIn (T.test test.now) level.now.number (run_at level.now.runs i) (slice_index_or found.items i None)) }
{
    values_of(
        rt,
        threads,
        alloc,
        level.len(),
        &|i: usize| -> Option<u64>
            requires { (i < length level.now.runs) × IsWholeLevel (T.events test.now) level.now
                × HaveNoHits (T.events test.now) (T.test test.now) level.now.runs skips }
            ensures { IsHitIn (T.test test.entry.now) level.entry.now.number (run_at level.entry.now.runs i)
                result }
        { hit_of(level, test, skips, i) },
    )
}

/// The first cut of the level that satisfies, in lexicographic order. Each cut is tested, by at most this many threads,
/// which draw the level's runs.
///
/// # Errors
/// An allocation was refused.
pub fn first_hit_by_threads<R: Threads + Sync, K: Key + Sync, T: RunTest + Sync>(
    rt: &R,
    threads: usize,
    alloc: Global,
    level: &Whole<K>,
    test: &T,
    skips: Skips<'_>,
) -> Result<Option<Cut>, AllocError>
    requires level { IsWholeLevel (T.events test.now) level.now }
    requires skips { HaveNoHits (T.events test.now) (T.test test.now) level.now.runs skips }
    ensures level { IfOk result (λ found. IfSome found (IsOfLevel (T.events test.now) level.now.number)) }
    ensures satisfies { IfOk result (λ found. IfSome found (λ cut. T.test test.now cut ≡ true)) }
    ensures first { IfOk result (λ found. IfSome found (λ cut.
        NoneBelow (T.events test.now) (T.test test.now) level.now.number
        → IsFirstSatisfying (T.events test.now) (T.test test.now) cut)) }
    ensures none { IfOk result (λ found. IfNone found ((cut : List ℕ)
        → IsOfLevel (T.events test.now) level.now.number cut → T.test test.now cut ≡ false)) }
{
    let found = hits_in_runs(rt, threads, alloc, level, test, skips)?;
    for i in 0..level.len() {
        match found[i] {
            Some(x) => return Ok(Some(cut_in(alloc, level, i, x))),
            None => {}
        }
    }
    Ok(None)
}

/// The word that begins at a spot: which of the cuts there avoid.
fn word_with<K: Key, T: RunTest>(
    known: Before<'_, '_, K>,
    level: &Whole<K>,
    test: &T,
    skips: Skips<'_>,
    spot: Spot,
    places: &mut [usize],
) -> u64
    requires level { IsWholeLevel (T.events test.now) level.now }
    requires skips { HaveNoHits (T.events test.now) (T.test test.now) level.now.runs skips }
    requires before { IsBefore (T.events test.now) (T.test test.now) level.now known.level.now known.marks.now }
    requires spot { IsSpot level.now.runs spot }
    requires kept { level.now.processes ≤ length places.old }
    ensures { IsWordOf (T.events test.now) (T.test test.now) level.now spot result }
{
    let n = block(spot.x, run::hi(level, spot.run));
    avoiding(Some(known), level, test, skips, spot.run, spot.x, n, places)
}

/// The same, with a row that has room for the processes.
fn word_of<K: Key, T: RunTest>(
    before: &Whole<K>,
    marks: &Marks,
    level: &Whole<K>,
    test: &T,
    skips: Skips<'_>,
    spot: Spot,
) -> u64
    requires level { IsWholeLevel (T.events test.now) level.now }
    requires skips { HaveNoHits (T.events test.now) (T.test test.now) level.now.runs skips }
    requires before { IsBefore (T.events test.now) (T.test test.now) level.now before.now marks.now }
    requires spot { IsSpot level.now.runs spot }
    ensures { IsWordOf (T.events test.now) (T.test test.now) level.now spot result }
{
    level.limits();
    let known = Before {
        level: before,
        marks,
    };
    if level.processes() <= SINGLE_LIMIT {
        let mut places = [0; SINGLE_LIMIT];
        return word_with(known, level, test, skips, spot, &mut places);
    }
    let mut places = [0; PROCESS_LIMIT];
    word_with(known, level, test, skips, spot, &mut places)
}

/// The words that begin at these spots, by at most this many threads.
fn words_of<R: Threads + Sync, K: Key + Sync, T: RunTest + Sync>(
    rt: &R,
    threads: usize,
    alloc: Global,
    before: &Whole<K>,
    marks: &Marks,
    level: &Whole<K>,
    test: &T,
    skips: Skips<'_>,
    spots: &[Spot],
) -> Result<Vec<u64>, AllocError>
    requires level { IsWholeLevel (T.events test.now) level.now }
    requires skips { HaveNoHits (T.events test.now) (T.test test.now) level.now.runs skips }
    requires before { IsBefore (T.events test.now) (T.test test.now) level.now before.now marks.now }
    requires spots { (j : ℕ) → j < length spots.now → IsSpot level.now.runs (spot_at spots.now j) }
    ensures one_each { IfOk result (λ words. length words.items ≡ length spots.now) }
    ensures words { IfOk result (λ words. (j : ℕ) → j < length spots.now
        → IsWordOf (T.events test.now) (T.test test.now) level.now (spot_at spots.now j) (slice_index words.items j)) }
{
    values_of(
        rt,
        threads,
        alloc,
        spots.len(),
        &|j: usize| -> u64
            requires { (j < length spots.now) × IsSpot level.now.runs (spot_at spots.now j)
                × IsWholeLevel (T.events test.now) level.now
                × HaveNoHits (T.events test.now) (T.test test.now) level.now.runs skips
                × IsBefore (T.events test.now) (T.test test.now) level.now before.now marks.now }
            ensures { IsWordOf (T.events test.entry.now) (T.test test.entry.now) level.entry.now
                (spot_at spots.entry.now j) result }
        { word_of(before, marks, level, test, skips, spots[j]) },
    )
}

/// The marks of the next level, from a level and its marks, by at most this many threads, which draw the words of
/// marks.
///
/// # Errors
/// An allocation was refused.
pub fn next_by_threads<R: Threads + Sync, K: Key + Sync, T: RunTest + Sync>(
    rt: &R,
    threads: usize,
    alloc: Global,
    before: &Whole<K>,
    marks: &Marks,
    level: &Whole<K>,
    test: &T,
    skips: Skips<'_>,
) -> Result<Marks, AllocError>
    requires before { IsWholeLevel (T.events test.now) before.now }
    requires level { IsWholeLevel (T.events test.now) level.now }
    requires skips { HaveNoHits (T.events test.now) (T.test test.now) level.now.runs skips }
    requires number { level.now.number ≡ before.now.number + 1 }
    requires marks { IsMarking (T.events test.now) (T.test test.now) before.now marks.now }
    ensures { IfOk result (IsMarking (T.events test.now) (T.test test.now) level.now) }
{
    let (first, spots) = spots(alloc, level)?;
    let words = words_of(
        rt, threads, alloc, before, marks, level, test, skips, &spots,
    )?;
    match bits(&words) {
        Some(count) => Ok(Marks::new(first, words, count)),
        None => Err(AllocError),
    }
}
