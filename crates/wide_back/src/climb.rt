//! The way from a dead end back up.
ghost use Rattle.def_model.specs.Cuts.{full_cut};
ghost use Rattle.def_wide.specs.DeadEnds.{named_counts};
ghost use Rattle.wide_back.specs.Goals.{predicate_of, recorded_of};
ghost use Rattle.wide_back.specs.Searches.{IsAt, IsWayTo};
ghost use Rattle.std.specs.Prelude.{◌≡◌, ◌↔◌, Contains, IfNone, IfSome, IsTrue, length};

use super::cuts::seen;
use super::dead::DeadEnds;
use super::search::Search;
use pd_clock::Cut;

/// Whether the same is seen of the cut as of a dead end.
fn is_dead(search: &Search<'_, '_>, dead: &DeadEnds, cut: &Cut) -> bool
    requires { length cut.now ≡ length (recorded_of search.now).events }
    ensures { IsTrue result ↔ Contains dead.now (named_counts (predicate_of search.now) cut.now) }
{
    let counts = seen(search, cut);
    dead.has(counts.counts())
}

/// Takes steps back, the last one first, up to a cut that is no dead end. From the process that is given on the search
/// goes on there. None if it has taken back all.
pub(crate) fn climb(
    search: &Search<'_, '_>,
    dead: &DeadEnds,
    cut: &mut Cut,
    undone: &mut Vec<usize>,
) -> Option<usize>
    requires { IsWayTo (recorded_of search.now) (predicate_of search.now) dead.now
        (full_cut (recorded_of search.now).events) undone.old.items cut.old 0 }
    ensures at { IfSome result (λ from. IsAt (recorded_of search.now) (predicate_of search.now) dead.now
        undone.new.items cut.new from) }
    ensures dead { IfNone result (Contains dead.now (named_counts (predicate_of search.now)
        (full_cut (recorded_of search.now).events))) }
{
    search.computation.limits();
    let mut from = 0;
    while is_dead(search, dead, cut) {
        let Some(p) = undone.pop() else {
            return None;
        };
        cut.redo(p);
        from = p + 1;
    }
    Some(from)
}
