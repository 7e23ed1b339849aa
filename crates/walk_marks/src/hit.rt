//! The first cut of a whole level that satisfies.
ghost use Rattle.walk_marks.specs.Marks.{cut_with};
ghost use Rattle.def_model.specs.Answers.{IsFirstSatisfying};
ghost use Rattle.def_model.specs.Cuts.{IsOfLevel};
ghost use Rattle.def_model.specs.Walks.{NoneBelow};
ghost use Rattle.walk_runs.specs.Levels.{IsWholeLevel};
ghost use Rattle.walk_marks.specs.RunPlaces.{run_at};
ghost use Rattle.walk_marks.specs.Skips.{HaveNoHits};
ghost use Rattle.walk_runs.specs.WholeLevels.{rest_at};
ghost use Rattle.std.specs.Prelude.{◌≡◌, ◌+◌, ◌<◌, ◌≤◌, ℕ, IfNone, IfSome, List, None, false, length, true};

use super::hits::{block, hits};
use super::run;
use super::skips::Skips;
use def_format::PROCESS_LIMIT;
use pd_clock::Cut;
use std::alloc::Global;
use walk_keys::bits::{BITS, least, words};
use walk_keys::{Key, RunTest};
use walk_runs::Whole;

/// The least count of the last process but one in run `i` whose cut satisfies.
#[inline(always)]
pub(crate) fn hit_in<K: Key, T: RunTest>(
    level: &Whole<K>,
    test: &T,
    skips: Skips<'_>,
    i: usize,
) -> Option<u64>
    requires level { IsWholeLevel (T.events test.now) level.now }
    requires skips { HaveNoHits (T.events test.now) (T.test test.now) level.now.runs skips }
    requires within { i < length level.now.runs }
    ensures some { IfSome result (λ x. ((run_at level.now.runs i).lo ≤ x) × (x ≤ (run_at level.now.runs i).hi)
        × (T.test test.now (cut_with level.now.number (run_at level.now.runs i) x) ≡ true)
        × ((u : ℕ) → (run_at level.now.runs i).lo ≤ u → u < x
        → T.test test.now (cut_with level.now.number (run_at level.now.runs i) u) ≡ false)) }
    ensures none { result ≡ None → (u : ℕ) → (run_at level.now.runs i).lo ≤ u → u ≤ (run_at level.now.runs i).hi
        → T.test test.now (cut_with level.now.number (run_at level.now.runs i) u) ≡ false }
{
    let lo = run::lo(level, i);
    let hi = run::hi(level, i);
    for b in 0..(hi - lo) / BITS + 1 {
        let x = lo + b * BITS;
        let found = hits(level, test, skips, i, x, block(x, hi));
        words(found);
        if found != 0 {
            return Some(x + least(found));
        }
    }
    None
}

/// The cut of run `i` with this count of the last process but one. It takes no memory.
pub(crate) fn cut_in<K: Key>(alloc: Global, level: &Whole<K>, i: usize, x: u64) -> Cut
    requires within { i < length level.now.runs }
    requires high { x ≤ rest_at level.now.number (run_at level.now.runs i) }
    requires processes { length (run_at level.now.runs i).prefix + 2 ≡ level.now.processes }
    ensures { result ≡ cut_with level.now.number (run_at level.now.runs i) x }
{
    level.limits();
    let n = level.processes();
    let mut counts = [0; PROCESS_LIMIT];
    run::read_prefix(level, i, &mut counts);
    counts[n - 2] = x;
    counts[n - 1] = run::rest(level, i) - x;
    Cut::new(alloc, &counts[..n]).unwrap()
}

/// The first cut of the level that satisfies, in lexicographic order. It takes no memory, and no time if all runs are
/// skipped.
pub fn first_hit<K: Key, T: RunTest>(
    alloc: Global,
    level: &Whole<K>,
    test: &T,
    skips: Skips<'_>,
) -> Option<Cut>
    requires level { IsWholeLevel (T.events test.now) level.now }
    requires skips { HaveNoHits (T.events test.now) (T.test test.now) level.now.runs skips }
    ensures level { IfSome result (IsOfLevel (T.events test.now) level.now.number) }
    ensures satisfies { IfSome result (λ cut. T.test test.now cut ≡ true) }
    ensures first { IfSome result (λ cut. NoneBelow (T.events test.now) (T.test test.now) level.now.number
        → IsFirstSatisfying (T.events test.now) (T.test test.now) cut) }
    ensures none { IfNone result ((cut : List ℕ) → IsOfLevel (T.events test.now) level.now.number cut
        → T.test test.now cut ≡ false) }
{
    if skips.are_all() {
        return None;
    }
    for i in 0..level.len() {
        match hit_in(level, test, skips, i) {
            Some(x) => return Some(cut_in(alloc, level, i, x)),
            None => {},
        }
    }
    None
}
