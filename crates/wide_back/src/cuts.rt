//! Cuts, and what a predicate sees of them.
ghost use Rattle.def_format.specs.Limits.{process_limit};
ghost use Rattle.def_model.specs.Cuts.{full_cut, one_less};
ghost use Rattle.def_wide.specs.DeadEnds.{named_counts};
ghost use Rattle.wide_back.specs.Goals.{predicate_of, recorded_of};
ghost use Rattle.std.specs.Prelude.{◌≡◌, ◌<◌, ◌≤◌, length, slice_index};

use super::search::Search;
use def_format::PROCESS_LIMIT;
use pd_clock::{Computation, Cut};
use std::alloc::Global;

/// The cut with all events. It takes no memory.
pub(crate) fn whole_cut(alloc: Global, computation: &Computation<'_>) -> Cut
    ensures { result ≡ full_cut computation.now.events }
{
    computation.limits();
    let processes = computation.processes();
    let mut counts = [0; PROCESS_LIMIT];
    for p in 0..processes {
        counts[p] = computation.events(p);
    }
    Cut::new(alloc, &counts[..processes]).unwrap()
}

/// The cut without the last event of process `p`. It takes no memory.
pub(crate) fn without_last(alloc: Global, cut: &Cut, p: usize) -> Cut
    requires few { length cut.now ≤ process_limit }
    requires some { 0 < slice_index cut.now p }
    ensures { result ≡ one_less cut.now p }
{
    let mut low = Cut::new(alloc, cut.counts()).unwrap();
    low.undo(p);
    low
}

/// The counts of the cut, with 0 in the place of each process that the predicate doesn't name. They take no memory.
pub(crate) fn seen(search: &Search<'_, '_>, cut: &Cut) -> Cut
    requires { length cut.now ≡ length (recorded_of search.now).events }
    ensures { result ≡ named_counts (predicate_of search.now) cut.now }
{
    search.computation.limits();
    let given = cut.counts();
    let processes = given.len();
    let mut counts = [0; PROCESS_LIMIT];
    for p in 0..processes {
        if search.names[p] {
            counts[p] = given[p];
        }
    }
    Cut::new(search.alloc, &counts[..processes]).unwrap()
}
