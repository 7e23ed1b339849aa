//! The search.
ghost use Rattle.def_model.specs.Cuts.{full_cut};
ghost use Rattle.def_model.specs.Predicates.{test_of};
ghost use Rattle.wide_back.specs.Goals.{predicate_of, recorded_of};
ghost use Rattle.wide_back.specs.Ways.{IsWay};
ghost use Rattle.pd_pred.specs.Views.{predicate_view};
ghost use Rattle.std.specs.Prelude.{◌≡◌, IfOk, false};

use super::Way;
use super::climb::climb;
use super::cuts::{seen, whole_cut};
use super::dead::DeadEnds;
use super::descent::descend;
use super::names::names;
use super::search::Search;
use pd_clock::{Computation, Cut};
use pd_pred::Pred;
use std::alloc::{AllocError, Global};

/// What a search comes to that goes from the cut with all events back for an avoiding observation, and gives up if it
/// comes to more than `limit` dead ends.
///
/// The search goes depth first: a step undoes the last event of the least process that leaves a consistent cut that
/// doesn't satisfy and is no dead end so far. The path that it finds is the one that is printed, whatever the limit.
/// It answers `Passed` exactly if no observation avoids and there are no more dead ends than the limit in all. Cuts at
/// which the processes that the predicate names have the same counts are one dead end.
///
/// Between two dead ends it takes no more steps than there are events. A step makes up to one test of the predicate for
/// each process, and one look-up among the dead ends, in logarithmic time. Kept are the counts of each dead end, and a
/// number for each event that is undone. No level is walked.
///
/// Source: Alagar and Venkatesan, Techniques to Tackle State Explosion in Global Predicate Detection, 2001, which go
/// through the consistent cuts depth first.
///
/// # Errors
/// An allocation was refused.
pub fn way_back(
    alloc: Global,
    computation: &Computation<'_>,
    pred: &Pred,
    limit: u64,
) -> Result<Way, AllocError>
    ensures { IfOk result (IsWay computation.now (predicate_view pred.now) limit) }
{
    let names = names(alloc, pred, computation.processes())?;
    let search = Search {
        alloc,
        computation,
        pred,
        names: &names,
    };
    let full = whole_cut(alloc, computation);
    if pred.holds(&computation.at(&full)) {
        return Ok(Way::Passed);
    }
    search_from(&search, full, limit)
}

/// The search from the cut with all events, which doesn't satisfy.
fn search_from(search: &Search<'_, '_>, full: Cut, limit: u64) -> Result<Way, AllocError>
    requires full { full ≡ full_cut (recorded_of search.now).events }
    requires fails { test_of (recorded_of search.now) (predicate_of search.now) full ≡ false }
    ensures { IfOk result (IsWay (recorded_of search.now) (predicate_of search.now) limit) }
{
    search.computation.limits();
    let mut dead = DeadEnds::new(search.alloc);
    let mut undone = Vec::new(search.alloc);
    let mut cut = full;
    let mut from = 0;
    loop {
        descend(search, &dead, from, &mut cut, &mut undone)?;
        if undone.len() as u64 == search.computation.total() {
            undone.reverse();
            return Ok(Way::Avoided(undone));
        }
        let ends = dead.len() as u64;
        if ends == limit {
            return Ok(Way::Undecided);
        }
        dead.add(search.alloc, seen(search, &cut).counts())?;
        let Some(next) = climb(search, &dead, &mut cut, &mut undone) else {
            return Ok(Way::Passed);
        };
        from = next;
    }
}
