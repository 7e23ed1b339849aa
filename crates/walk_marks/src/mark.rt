//! The marks of the first level with a satisfying cut, and those of the next level.
ghost use Rattle.walk_keys.specs.Words.{has_bit};
ghost use Rattle.walk_marks.specs.Marks.{HasWords, IsBefore, IsMarking, last_word};
ghost use Rattle.def_model.specs.Order.{HasNoCycle};
ghost use Rattle.def_model.specs.Walks.{NoneBelow};
ghost use Rattle.walk_runs.specs.Levels.{IsWholeLevel};
ghost use Rattle.walk_marks.specs.RunPlaces.{run_at};
ghost use Rattle.walk_marks.specs.Skips.{HaveNoHits};
ghost use Rattle.walk_keys.specs.Neighbors.{cut_at};
ghost use Rattle.walk_runs.specs.WholeLevels.{AvoidsAt, rest_at};
ghost use Rattle.std.specs.Prelude.{◌≡◌, ◌+◌, ◌-◌, ◌<◌, ◌≤◌, ◌&&◌, ◌↔◌, ℕ, suc, IfOk, IsTrue, MatchOption, false, length, not, slice_index};

use super::hits::{block, hits};
use super::marks::{Marks, bits};
use super::parents::parents;
use super::run;
use super::skips::Skips;
use def_format::PROCESS_LIMIT;
use std::alloc::{AllocError, Global};
use walk_keys::bits::{BITS, lowest, without, words};
use walk_keys::{Key, RunTest};
use walk_runs::Whole;

/// A level and its marks.
#[derive(Clone, Copy)]
pub(crate) struct Before<'a, 'b, K: Key> {
    pub level: &'a Whole<K>,
    pub marks: &'b Marks,
}

/// The bits, without those of the cuts that satisfy.
fn unsatisfied<K: Key, T: RunTest>(
    level: &Whole<K>,
    test: &T,
    skips: Skips<'_>,
    i: usize,
    x: u64,
    n: u64,
    possible: u64,
) -> u64
    requires level { IsWholeLevel (T.events test.now) level.now }
    requires skips { HaveNoHits (T.events test.now) (T.test test.now) level.now.runs skips }
    requires within { i < length level.now.runs }
    requires some { 1 ≤ n }
    requires few { n ≤ 64 }
    requires low { (run_at level.now.runs i).lo ≤ x }
    requires high { x + n ≤ (run_at level.now.runs i).hi + 1 }
    requires narrow { (j : ℕ) → n ≤ j → has_bit possible j ≡ false }
    ensures bits { (j : ℕ) → j < n → has_bit result j ≡ (has_bit possible j
        && not (T.test test.now (cut_at (run_at level.now.runs i).prefix (x + j)
        (rest_at level.now.number (run_at level.now.runs i) - (x + j))))) }
    ensures beyond { (j : ℕ) → n ≤ j → has_bit result j ≡ false }
{
    words(possible);
    if possible == 0 {
        return 0;
    }
    without(possible, hits(level, test, skips, i, x, n))
}

/// The cuts of a run that avoid: bit `j` is that of the cut whose count of the last process but one is `x + j`, for
/// `j` below
/// `n`. With no level before, none of its cuts satisfies, nor one of a level below it.
pub(crate) fn avoiding<K: Key, T: RunTest>(
    before: Option<Before<'_, '_, K>>,
    level: &Whole<K>,
    test: &T,
    skips: Skips<'_>,
    i: usize,
    x: u64,
    n: u64,
    places: &mut [usize],
) -> u64
    requires level { IsWholeLevel (T.events test.now) level.now }
    requires skips { HaveNoHits (T.events test.now) (T.test test.now) level.now.runs skips }
    requires known { MatchOption before
        (HasNoCycle (T.events test.now) × NoneBelow (T.events test.now) (T.test test.now) level.now.number)
        (λ b. IsBefore (T.events test.now) (T.test test.now) level.now b.level.now b.marks.now) }
    requires within { i < length level.now.runs }
    requires some { 1 ≤ n }
    requires few { n ≤ 64 }
    requires low { (run_at level.now.runs i).lo ≤ x }
    requires high { x + n ≤ (run_at level.now.runs i).hi + 1 }
    requires kept { level.now.processes ≤ length places.old }
    ensures bits { (j : ℕ) → j < n → IsTrue (has_bit result j)
        ↔ AvoidsAt (T.events test.now) (T.test test.now) level.now.number (run_at level.now.runs i).prefix (x + j) }
    ensures beyond { (j : ℕ) → n ≤ j → has_bit result j ≡ false }
{
    level.limits();
    match before {
        Some(known) => {
            known.level.limits();
            let possible = parents(known.level, known.marks, level, i, x, n, places);
            unsatisfied(level, test, skips, i, x, n, possible)
        },
        None => unsatisfied(level, test, skips, i, x, n, lowest(n)),
    }
}

/// Adds the words of a run.
///
/// # Errors
/// An allocation was refused.
fn push_run<K: Key, T: RunTest>(
    before: Option<Before<'_, '_, K>>,
    level: &Whole<K>,
    test: &T,
    skips: Skips<'_>,
    i: usize,
    places: &mut [usize],
    all: &mut Vec<u64>,
) -> Result<(), AllocError>
    requires level { IsWholeLevel (T.events test.now) level.now }
    requires skips { HaveNoHits (T.events test.now) (T.test test.now) level.now.runs skips }
    requires known { MatchOption before
        (HasNoCycle (T.events test.now) × NoneBelow (T.events test.now) (T.test test.now) level.now.number)
        (λ b. IsBefore (T.events test.now) (T.test test.now) level.now b.level.now b.marks.now) }
    requires within { i < length level.now.runs }
    requires kept { level.now.processes ≤ length places.old }
    ensures more { IfOk result (λ _. length all.new.items ≡ length all.old.items + suc (last_word (run_at
        level.now.runs i))) }
    ensures others { IfOk result (λ _. (k : ℕ) → k < length all.old.items
        → slice_index all.new.items k ≡ slice_index all.old.items k) }
    ensures words { IfOk result (λ _. HasWords (T.events test.now) (T.test test.now) level.now.number
        (run_at level.now.runs i) all.new.items (length all.old.items)) }
{
    let lo = run::lo(level, i);
    let hi = run::hi(level, i);
    for b in 0..(hi - lo) / BITS + 1 {
        let x = lo + b * BITS;
        let n = block(x, hi);
        all.push(avoiding(before, level, test, skips, i, x, n, places))?;
    }
    Ok(())
}

/// The marks of a level.
///
/// # Errors
/// An allocation was refused.
fn mark<'a, K: Key, T: RunTest>(
    alloc: Global,
    before: Option<Before<'a, '_, K>>,
    level: &'a Whole<K>,
    test: &T,
    skips: Skips<'_>,
) -> Result<Marks, AllocError>
    requires level { IsWholeLevel (T.events test.now) level.now }
    requires skips { HaveNoHits (T.events test.now) (T.test test.now) level.now.runs skips }
    requires known { MatchOption before
        (HasNoCycle (T.events test.now) × NoneBelow (T.events test.now) (T.test test.now) level.now.number)
        (λ b. IsBefore (T.events test.now) (T.test test.now) level.now b.level.now b.marks.now) }
    ensures { IfOk result (IsMarking (T.events test.now) (T.test test.now) level.now) }
{
    let mut first = Vec::with_capacity(alloc, level.len())?;
    let mut all = Vec::with_capacity(alloc, level.len())?;
    level.limits();
    let mut places = [0; PROCESS_LIMIT];
    for i in 0..level.len() {
        first.push(all.len())?;
        push_run(before, level, test, skips, i, &mut places, &mut all)?;
    }
    match bits(&all) {
        Some(count) => Ok(Marks::new(first, all, count)),
        None => Err(AllocError),
    }
}

/// The marks of a level where no cut of a lower level satisfies: all cuts avoid but those that satisfy.
///
/// # Errors
/// An allocation was refused.
pub fn unsatisfying<K: Key, T: RunTest>(
    alloc: Global,
    level: &Whole<K>,
    test: &T,
    skips: Skips<'_>,
) -> Result<Marks, AllocError>
    requires level { IsWholeLevel (T.events test.now) level.now }
    requires skips { HaveNoHits (T.events test.now) (T.test test.now) level.now.runs skips }
    requires acyclic { HasNoCycle (T.events test.now) }
    requires none_below { NoneBelow (T.events test.now) (T.test test.now) level.now.number }
    ensures { IfOk result (IsMarking (T.events test.now) (T.test test.now) level.now) }
{
    mark(alloc, None, level, test, skips)
}

/// The marks of the next level, from a level and its marks.
///
/// # Errors
/// An allocation was refused.
pub fn next<K: Key, T: RunTest>(
    alloc: Global,
    before: &Whole<K>,
    marks: &Marks,
    level: &Whole<K>,
    test: &T,
    skips: Skips<'_>,
) -> Result<Marks, AllocError>
    requires before { IsWholeLevel (T.events test.now) before.now }
    requires level { IsWholeLevel (T.events test.now) level.now }
    requires skips { HaveNoHits (T.events test.now) (T.test test.now) level.now.runs skips }
    requires number { level.now.number ≡ before.now.number + 1 }
    requires marks { IsMarking (T.events test.now) (T.test test.now) before.now marks.now }
    ensures { IfOk result (IsMarking (T.events test.now) (T.test test.now) level.now) }
{
    let known = Before {
        level: before,
        marks,
    };
    mark(alloc, Some(known), level, test, skips)
}
