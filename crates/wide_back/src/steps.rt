//! The next step of a search.
ghost use Rattle.def_model.specs.Cuts.{IsConsistent};
ghost use Rattle.wide_back.specs.Goals.{predicate_of, recorded_of};
ghost use Rattle.wide_back.specs.Searches.{AreTried, IsStep, IsTried};
ghost use Rattle.std.specs.Prelude.{◌≡◌, ◌<◌, IfNone, IfSome, IsTrue, false, length};

use super::cuts::{seen, without_last};
use super::dead::DeadEnds;
use super::search::Search;
use pd_clock::Cut;

/// Whether to undo the last event of process `p` leaves a consistent cut that doesn't satisfy and is no dead end.
fn is_step(search: &Search<'_, '_>, dead: &DeadEnds, cut: &Cut, p: usize) -> bool
    requires consistent { IsConsistent (recorded_of search.now).events cut.now }
    requires within { p < length cut.now }
    ensures yes { IsTrue result → IsStep (recorded_of search.now) (predicate_of search.now) dead.now cut.now p }
    ensures no { result ≡ false → IsTried (recorded_of search.now) (predicate_of search.now) dead.now cut.now p }
{
    search.computation.limits();
    if !search.computation.can_undo(cut, p) {
        return false;
    }
    let low = without_last(search.alloc, cut, p);
    if search.pred.holds(&search.computation.at(&low)) {
        return false;
    }
    let counts = seen(search, &low);
    !dead.has(counts.counts())
}

/// The least process, from `from` on, whose last event can be undone so that a consistent cut is left that doesn't
/// satisfy and is no dead end.
pub(crate) fn next_step(
    search: &Search<'_, '_>,
    dead: &DeadEnds,
    cut: &Cut,
    from: usize,
) -> Option<usize>
    requires consistent { IsConsistent (recorded_of search.now).events cut.now }
    requires tried { AreTried (recorded_of search.now) (predicate_of search.now) dead.now cut.now from }
    ensures step { IfSome result (IsStep (recorded_of search.now) (predicate_of search.now) dead.now cut.now) }
    ensures least { IfSome result (AreTried (recorded_of search.now) (predicate_of search.now) dead.now cut.now) }
    ensures none { IfNone result (AreTried (recorded_of search.now) (predicate_of search.now) dead.now cut.now
        (length cut.now)) }
{
    for p in from..cut.counts().len() {
        if is_step(search, dead, cut, p) {
            return Some(p);
        }
    }
    None
}
