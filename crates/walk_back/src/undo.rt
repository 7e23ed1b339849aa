//! Cuts without the last event of a process.
ghost use Rattle.walk_back.specs.Ways.{LeavesOneOf};
ghost use Rattle.def_format.specs.Limits.{process_limit};
ghost use Rattle.def_model.specs.Cuts.{full_cut, one_less};
ghost use Rattle.std.specs.Prelude.{◌≡◌, ◌<◌, ◌≤◌, ◌↔◌, ℕ, IsTrue, length, slice_index};

use def_format::PROCESS_LIMIT;
use pd_clock::{Computation, Cut};
use pd_level::Level;
use std::alloc::Global;

/// The cut with all events. It takes no memory.
pub(crate) fn whole_cut(alloc: Global, computation: &Computation<'_>) -> Cut
    ensures { result ≡ full_cut computation.now.events }
{
    computation.limits();
    let processes = computation.processes();
    let mut counts = [0; PROCESS_LIMIT];
    for p in 0..processes {
        counts[p] = computation.events(p);
    }
    Cut::new(alloc, &counts[..processes]).unwrap()
}

/// The same cut once more. It takes no memory.
pub(crate) fn same_cut(alloc: Global, cut: &Cut) -> Cut
    requires { length cut.now ≤ process_limit }
    ensures { result ≡ cut.now }
{
    Cut::new(alloc, cut.counts()).unwrap()
}

/// The cut without the last event of process `p`. It takes no memory.
pub(crate) fn without_last(alloc: Global, cut: &Cut, p: usize) -> Cut
    requires few { length cut.now ≤ process_limit }
    requires some { 0 < slice_index cut.now p }
    ensures { result ≡ one_less cut.now p }
{
    let mut low = same_cut(alloc, cut);
    low.undo(p);
    low
}

/// The least process whose last event can be undone so that a cut of the level is left.
pub(crate) fn least_undone(alloc: Global, cut: &Cut, level: &Level) -> usize
    requires few { length cut.now ≤ process_limit }
    requires some { (p : ℕ) × (p < length cut.now) × LeavesOneOf level.now.cuts cut.now p }
    ensures leaves { LeavesOneOf level.now.cuts cut.now result }
    ensures least { (q : ℕ) → q < result → ¬ LeavesOneOf level.now.cuts cut.now q }
{
    let mut p = 0;
    while !leaves_one_of(alloc, level, cut, p) {
        p += 1;
    }
    p
}

/// Whether the last event of process `p` can be undone so that a cut of the level is left.
fn leaves_one_of(alloc: Global, level: &Level, cut: &Cut, p: usize) -> bool
    requires few { length cut.now ≤ process_limit }
    requires within { p < length cut.now }
    ensures { IsTrue result ↔ LeavesOneOf level.now.cuts cut.now p }
{
    cut.counts()[p] > 0 && level.contains(&without_last(alloc, cut, p))
}
