//! Whether the work at a level is worth several threads.
ghost use Rattle.std.specs.Prelude.{◌≡◌, ◌<◌, length};

use super::stage::Stage;
use pd_level::LevelKey;
use walk_marks::Skips;
use walk_runs::Whole;
use walk_tables::Compiled;

/// From this many comparisons at the cuts of a level on, threads share them: several milliseconds of work, where a
/// thread takes tens of microseconds to start.
const SHARED_COMPARISONS: u64 = 200_000;

/// Whether this many comparisons at this many cuts are worth several threads.
pub(crate) fn is_much(comparisons: u64, cuts: u64) -> bool {
    comparisons.saturating_mul(cuts) >= SHARED_COMPARISONS
}

/// How many comparisons those of the predicates have together that aren't answered yet and have at most `most`, if they
/// are at most the greatest `u64`.
pub(crate) fn weight(tests: &[Compiled<'_, '_>], stages: &[Stage], most: u64) -> u64
    requires { length stages.now ≡ length tests.now }
{
    let mut sum: u64 = 0;
    for i in 0..tests.len() {
        let comparisons = tests[i].comparisons();
        match &stages[i] {
            Stage::Answered(_) => {}
            _ => {
                if comparisons <= most {
                    sum = sum.saturating_add(comparisons);
                }
            }
        }
    }
    sum
}

/// With how many comparisons a predicate's turn is drawn at most, of predicates that have `weight` together at a level
/// with this many cuts. One that has more has more than all others together, by as much as is worth several threads:
/// they would wait for whoever drew it.
pub(crate) fn most_drawn(weight: u64, cuts: u64) -> u64 {
    weight.saturating_add(SHARED_COMPARISONS / cuts.max(1)) / 2
}

/// How many predicates aren't answered yet.
pub(crate) fn unanswered(stages: &[Stage]) -> u64 {
    let mut count: u64 = 0;
    for stage in stages {
        match stage {
            Stage::Answered(_) => {}
            _ => count = count.saturating_add(1),
        }
    }
    count
}

/// How many cuts of a level have to be looked at: those of the runs that aren't skipped.
fn cuts_left<K: LevelKey>(level: &Whole<K>, skips: Skips<'_>) -> u64
    requires { skips.bit < 64 }
{
    let mut sum: u64 = 0;
    for i in 0..level.len() {
        if !skips.has(i) {
            sum = sum.saturating_add(level.hi(i).saturating_sub(level.lo(i)).saturating_add(1));
        }
    }
    sum
}

/// By how many of these threads what a predicate has to evaluate at a level is shared: by all, or by one if it isn't
/// much.
pub(crate) fn threads_for<K: LevelKey>(
    threads: usize,
    test: &Compiled<'_, '_>,
    level: &Whole<K>,
    skips: Skips<'_>,
) -> usize
    requires { skips.bit < 64 }
{
    if threads <= 1 {
        return 1;
    }
    let comparisons = test.comparisons();
    if is_much(comparisons, level.cuts()) && is_much(comparisons, cuts_left(level, skips)) {
        threads
    } else {
        1
    }
}
