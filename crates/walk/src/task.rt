//! One predicate at a whole level.
ghost use Rattle.walk.specs.Rounds.{IsRound};
ghost use Rattle.walk.specs.Tasks.{IsTaskOf};
ghost use Rattle.std.specs.Prelude.{◌<◌, length};

use super::round::Round;
use super::worth::threads_for;
use pd_level::LevelKey;
use walk_back::Held;
use walk_marks::Skips;
use walk_runs::Whole;
use walk_tables::Compiled;

/// One predicate and the level that it is looked at at: the runs that are skipped there, the whole levels that
/// there are, and by how many threads it is shared.
#[derive(Clone, Copy)]
pub(crate) struct Task<'a, 'b, 'c, K: LevelKey> {
    pub test: &'a Compiled<'b, 'c>,
    pub width: u64,
    pub gap: u64,
    pub level: &'a Whole<K>,
    pub skips: Skips<'a>,
    pub wholes: &'a Held<Whole<K>>,
    pub threads: usize,
}

/// Predicate `i` at the level of the round, shared by this many threads if it has much to evaluate there.
pub(crate) fn task_of<'a, 'b, 'c, K: LevelKey>(
    round: &Round<'a, '_, 'b, 'c, K>,
    i: usize,
    threads: usize,
) -> Task<'a, 'b, 'c, K>
    requires round { IsRound round.now }
    requires within { i < length round.now.tests.now }
    ensures { IsTaskOf round.now i result }
{
    round.computation.limits();
    let test = &round.tests[i];
    let skips = round.skipped.of(i);
    Task {
        test,
        width: round.width,
        gap: round.gap,
        level: round.level,
        skips,
        wholes: round.wholes,
        threads: threads_for(threads, test, round.level, skips),
    }
}
