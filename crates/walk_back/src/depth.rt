//! The way down to a kept level, searched depth first.
ghost use Rattle.walk_back.specs.Searches.{AreDead, IsWorthTrying, NoneLeaves, search_events, search_test};
ghost use Rattle.walk_back.specs.Ways.{IsAvoidingLevel, IsReached};
ghost use Rattle.def_format.specs.Limits.{process_limit};
ghost use Rattle.def_model.specs.Answers.{LeavesAvoiding};
ghost use Rattle.def_model.specs.Cuts.{IsConsistent};
ghost use Rattle.def_model.specs.Predicates.{test_of};
ghost use Rattle.pd_pred.specs.Views.{predicate_view};
ghost use Rattle.std.specs.Prelude.{◌≡◌, ◌+◌, ◌<◌, ◌≤◌, IfNone, IfOk, IfSome, IsTrue, false, length, sum};

use super::dead::DeadEnds;
use super::search::Search;
use super::undo::{same_cut, without_last};
use pd_clock::{Computation, Cut};
use pd_level::Level;
use pd_pred::Pred;
use std::alloc::{AllocError, Global};
use walk_keys::Pair;

/// A search gives up after this many dead ends for each level.
const DEAD_ENDS: u64 = 64;

/// The cut of the kept level to which the way leads from a cut of level `k`, found depth first: the processes are
/// appended to the path. None if the search has given up.
pub(crate) fn search_down(
    alloc: Global,
    computation: &Computation<'_>,
    pred: &Pred,
    k: u64,
    top: &Cut,
    kept: &Level,
    path: &mut Vec<usize>,
) -> Result<Option<Cut>, AllocError>
    requires list { IsAvoidingLevel computation.now.events
        (test_of computation.now (predicate_view pred.now)) kept.now }
    requires number { sum top.now ≡ k }
    requires above { kept.now.number < k }
    requires reached { IsReached computation.now.events
        (test_of computation.now (predicate_view pred.now)) path.old.items top.now }
    ensures found { IfOk result (λ found. IfSome found (λ low. IsReached computation.now.events
        (test_of computation.now (predicate_view pred.now)) path.new.items low × (sum low ≡ kept.now.number))) }
    ensures not_found { IfOk result (λ found. IfNone found (path.new.items ≡ path.old.items)) }
{
    computation.limits();
    let search = Search {
        alloc,
        computation,
        pred,
        kept,
    };
    let dead_ends = (k - kept.number()).saturating_mul(DEAD_ENDS);
    let mut dead = DeadEnds::<Pair>::new(alloc);
    let mut steps = Vec::new(alloc);
    let mut cut = same_cut(alloc, top);
    let mut next = 0;
    for _ in 0..u64::MAX {
        let level = k - steps.len() as u64;
        let p = next_step(&search, &dead, level, &cut, next);
        if p < computation.processes() {
            steps.push(p)?;
            cut.undo(p);
            if level - 1 == kept.number() {
                path.extend_from_slice(&steps)?;
                return Ok(Some(cut));
            }
            next = 0;
            continue;
        }
        let Some(tried) = steps.pop() else {
            return Ok(None);
        };
        dead.add(&cut)?;
        if dead.len() as u64 > dead_ends {
            return Ok(None);
        }
        cut.redo(tried);
        next = tried;
    }
    Ok(None)
}

/// The least process, from `next` on, that is worth trying: the number of processes if there is none.
fn next_step(
    search: &Search<'_, '_>,
    dead: &DeadEnds<Pair>,
    level: u64,
    cut: &Cut,
    next: usize,
) -> usize
    requires list { IsAvoidingLevel (search_events search.now) (search_test search.now) search.now.kept.now }
    requires dead { AreDead (search_events search.now) (search_test search.now) dead.now }
    requires few { length cut.now ≤ process_limit }
    requires consistent { IsConsistent (search_events search.now) cut.now }
    requires number { sum cut.now ≡ level }
    requires tried { NoneLeaves (search_events search.now) (search_test search.now) cut.now next }
    requires within { next ≤ length cut.now }
    ensures within { result ≤ length cut.now }
    ensures tried { NoneLeaves (search_events search.now) (search_test search.now) cut.now result }
    ensures worth_trying { result < length cut.now → IsWorthTrying (search_events search.now) (search_test search.now)
        search.now.kept.now.number cut.now result }
{
    for p in next..cut.counts().len() {
        if is_worth_trying(search, dead, level, cut, p) {
            return p;
        }
    }
    cut.counts().len()
}

/// Whether to undo the last event of process `p` leaves a consistent cut that doesn't satisfy, and that the kept level
/// has if it is of this level. Where it doesn't, no avoiding cut is left.
fn is_worth_trying(
    search: &Search<'_, '_>,
    dead: &DeadEnds<Pair>,
    level: u64,
    cut: &Cut,
    p: usize,
) -> bool
    requires list { IsAvoidingLevel (search_events search.now) (search_test search.now) search.now.kept.now }
    requires dead { AreDead (search_events search.now) (search_test search.now) dead.now }
    requires few { length cut.now ≤ process_limit }
    requires consistent { IsConsistent (search_events search.now) cut.now }
    requires number { sum cut.now ≡ level }
    requires within { p < length cut.now }
    ensures yes { IsTrue result → IsWorthTrying (search_events search.now) (search_test search.now)
        search.now.kept.now.number cut.now p }
    ensures no { result ≡ false → ¬ LeavesAvoiding (search_events search.now) (search_test search.now) cut.now p }
{
    let computation = search.computation;
    if !computation.can_undo(cut, p) {
        return false;
    }
    let low = without_last(search.alloc, cut, p);
    if level - 1 == search.kept.number() {
        return search.kept.contains(&low);
    }
    if dead.has(&low) {
        return false;
    }
    !search.pred.holds(&computation.at(&low))
}
