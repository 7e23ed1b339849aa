//! The way down to a kept level.
ghost use Rattle.walk_back.specs.Counts.{others};
ghost use Rattle.walk_back.specs.Ways.{AreAvoidingLevels, AreInTurn, IsAvoidingLevel, IsReached, last_number};
ghost use Rattle.def_model.specs.Predicates.{test_of};
ghost use Rattle.pd_pred.specs.Views.{predicate_view};
ghost use Rattle.std.specs.Prelude.{◌≡◌, ◌+◌, ◌-◌, ◌<◌, ◌≤◌, IfOk, length, max, sum, take};

use super::Holder;
use super::avoiding::next_avoiding;
use super::depth::search_down;
use super::undo::least_undone;
use pd_clock::{Computation, Cut};
use pd_expand::Crew;
use pd_level::{Gate, Level};
use pd_pred::Pred;
use std::alloc::{AllocError, Global};
use std::sync::Wait;
use std::thread::Threads;

/// The way from a cut of level `k` down to the level that is held last, searched depth first. Where the search gives
/// up, the levels in between are made again, and held no longer than the way leads through them.
pub(crate) fn descend<T: Threads + Wait + Sync, G: Gate + Sync>(
    crew: &Crew<'_, '_, T, G>,
    alloc: Global,
    computation: &Computation<'_>,
    pred: &Pred,
    k: u64,
    cut: Cut,
    held: &mut Holder,
    path: &mut Vec<usize>,
) -> Result<Cut, AllocError>
    requires some { 0 < length held.old.levels.items }
    requires lists { AreAvoidingLevels computation.now.events
        (test_of computation.now (predicate_view pred.now)) held.old.levels.items }
    requires number { sum cut ≡ k }
    requires above { last_number held.old.levels.items ≤ k }
    requires reached { IsReached computation.now.events
        (test_of computation.now (predicate_view pred.now)) path.old.items cut }
    ensures reached { IfOk result (λ low. IsReached computation.now.events
        (test_of computation.now (predicate_view pred.now)) path.new.items low) }
    ensures number { IfOk result (λ low. sum low ≡ last_number held.old.levels.items) }
    ensures levels { IfOk result (λ _. held.new.levels.items ≡ held.old.levels.items) }
    ensures no_fewer { IfOk result (λ _. held.old.most ≤ held.new.most) }
    ensures same_others { IfOk result (λ _. others held.new ≡ others held.old) }
    ensures most { IfOk result (λ _. held.new.most
        ≤ max held.old.most (length held.old.levels.items + (k - last_number held.old.levels.items - 1)
        + others held.old)) }
{
    if k == held.last().number() {
        return Ok(cut);
    }
    if let Some(low) = search_down(alloc, computation, pred, k, &cut, held.last(), path)? {
        return Ok(low);
    }
    let kept = held.len();
    expand(crew, alloc, computation, pred, k, held)?;
    step_down(alloc, computation, pred, kept, cut, held, path)
}

/// Holds the levels between the last one held and level `k`.
fn expand<T: Threads + Wait + Sync, G: Gate + Sync>(
    crew: &Crew<'_, '_, T, G>,
    alloc: Global,
    computation: &Computation<'_>,
    pred: &Pred,
    k: u64,
    held: &mut Holder,
) -> Result<(), AllocError>
    requires some { 0 < length held.old.levels.items }
    requires lists { AreAvoidingLevels computation.now.events
        (test_of computation.now (predicate_view pred.now)) held.old.levels.items }
    requires below { last_number held.old.levels.items < k }
    ensures lists { IfOk result (λ _. AreAvoidingLevels computation.now.events
        (test_of computation.now (predicate_view pred.now)) held.new.levels.items) }
    ensures kept { IfOk result (λ _. take (length held.old.levels.items) held.new.levels.items
        ≡ held.old.levels.items) }
    ensures in_turn { IfOk result (λ _. AreInTurn (length held.old.levels.items)
        (last_number held.old.levels.items) held.new.levels.items) }
    ensures count { IfOk result (λ _. length held.new.levels.items + last_number held.old.levels.items + 1
        ≡ length held.old.levels.items + k) }
    ensures no_fewer { IfOk result (λ _. held.old.most ≤ held.new.most) }
    ensures same_others { IfOk result (λ _. others held.new ≡ others held.old) }
    ensures most { IfOk result (λ _. held.new.most
        ≤ max held.old.most (length held.new.levels.items + others held.old)) }
{
    for _ in held.last().number() + 1..k {
        let next = next_avoiding(crew, alloc, computation, pred, held.last())?;
        held.push(next)?;
    }
    Ok(())
}

/// The way down through the levels held after the first `kept` ones, which are let go of, to the last of these.
fn step_down(
    alloc: Global,
    computation: &Computation<'_>,
    pred: &Pred,
    kept: usize,
    cut: Cut,
    held: &mut Holder,
    path: &mut Vec<usize>,
) -> Result<Cut, AllocError>
    requires some { 0 < kept }
    requires within { kept ≤ length held.old.levels.items }
    requires lists { AreAvoidingLevels computation.now.events
        (test_of computation.now (predicate_view pred.now)) held.old.levels.items }
    requires in_turn { AreInTurn kept (last_number (take kept held.old.levels.items)) held.old.levels.items }
    requires next { sum cut ≡ last_number held.old.levels.items + 1 }
    requires reached { IsReached computation.now.events
        (test_of computation.now (predicate_view pred.now)) path.old.items cut }
    ensures reached { IfOk result (λ low. IsReached computation.now.events
        (test_of computation.now (predicate_view pred.now)) path.new.items low) }
    ensures number { IfOk result (λ low. sum low ≡ last_number (take kept held.old.levels.items)) }
    ensures levels { IfOk result (λ _. held.new.levels.items ≡ take kept held.old.levels.items) }
    ensures same_others { others held.new ≡ others held.old }
    ensures most { held.new.most ≡ held.old.most }
{
    let mut cut = cut;
    while held.len() > kept {
        cut = step_to(alloc, computation, pred, held.last(), cut, path)?;
        held.drop_last();
    }
    step_to(alloc, computation, pred, held.last(), cut, path)
}

/// The cut without the last event of the least process that leaves a cut of the level below.
pub(crate) fn step_to(
    alloc: Global,
    computation: &Computation<'_>,
    _pred: &Pred,
    level: &Level,
    cut: Cut,
    path: &mut Vec<usize>,
) -> Result<Cut, AllocError>
    requires list { IsAvoidingLevel computation.now.events
        (test_of computation.now (predicate_view _pred.now)) level.now }
    requires next { sum cut ≡ level.now.number + 1 }
    requires reached { IsReached computation.now.events
        (test_of computation.now (predicate_view _pred.now)) path.old.items cut }
    ensures reached { IfOk result (λ low. IsReached computation.now.events
        (test_of computation.now (predicate_view _pred.now)) path.new.items low) }
    ensures number { IfOk result (λ low. sum low ≡ level.now.number) }
{
    computation.limits();
    let mut cut = cut;
    let p = least_undone(alloc, &cut, level);
    path.push(p)?;
    cut.undo(p);
    Ok(cut)
}
