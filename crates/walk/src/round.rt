//! The predicates at a whole level.

use pd_clock::Computation;
use pd_level::LevelKey;
use walk_back::Held;
use walk_marks::SkippedRuns;
use walk_runs::Whole;
use walk_tables::Compiled;

/// All predicates and the level that they are looked at at: which of its runs are skipped, the whole levels that there
/// are, and how many threads there are.
#[derive(Clone, Copy)]
pub(crate) struct Round<'a, 'b, 'c, 'd, K: LevelKey> {
    pub computation: &'a Computation<'b>,
    pub tests: &'a [Compiled<'c, 'd>],
    pub width: u64,
    pub gap: u64,
    pub level: &'a Whole<K>,
    pub skipped: &'a SkippedRuns,
    pub wholes: &'a Held<Whole<K>>,
    pub threads: usize,
}
