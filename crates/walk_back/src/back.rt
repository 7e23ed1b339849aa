//! The whole way back.
ghost use Rattle.walk_back.specs.Counts.{others};
ghost use Rattle.walk_back.specs.Ways.{AreKept};
ghost use Rattle.def_model.specs.Answers.{IsPrintedPath};
ghost use Rattle.def_model.specs.Cuts.{full_cut, total};
ghost use Rattle.def_model.specs.Observations.{IsAvoiding};
ghost use Rattle.def_model.specs.Predicates.{test_of};
ghost use Rattle.def_model.specs.Walks.{NoneBelow};
ghost use Rattle.pd_pred.specs.Views.{predicate_view};
ghost use Rattle.std.specs.Prelude.{◌≡◌, ◌+◌, ◌≤◌, IfOk, [], length, max};

use super::Holder;
use super::descent::descend;
use super::free::free_way;
use super::undo::whole_cut;
use pd_clock::Computation;
use pd_expand::Crew;
use pd_level::Gate;
use pd_pred::Pred;
use std::alloc::{AllocError, Global};
use std::sync::Wait;
use std::thread::Threads;

/// The processes, counted from 0, in the order in which their events happen in an avoiding observation. From the full
/// cut backward each step undoes the event of the least process that leaves an avoiding cut.
///
/// Levels of avoiding cuts are held from level `_split` on, none more than `_gap` above the one before it; no cut of a
/// lower level satisfies. They are let go of on the way, and at most `_gap` more are held at once than at the
/// beginning. What is walked stays, and so do whole levels. The crew shares the work on levels that are made again.
///
/// # Errors
/// An allocation was refused. Which levels are still held then is left open: they aren't used again.
pub fn way_back<T: Threads + Wait + Sync, G: Gate + Sync>(
    crew: &Crew<'_, '_, T, G>,
    alloc: Global,
    computation: &Computation<'_>,
    pred: &Pred,
    _split: u64,
    _gap: u64,
    held: &mut Holder,
) -> Result<Vec<usize>, AllocError>
    requires none_below { NoneBelow computation.now.events
        (test_of computation.now (predicate_view pred.now)) _split }
    requires kept { AreKept computation.now.events (test_of computation.now (predicate_view pred.now)) _split _gap
        (total computation.now.events) held.old.levels.items }
    requires full { IsAvoiding computation.now.events (test_of computation.now (predicate_view pred.now))
        (total computation.now.events) (full_cut computation.now.events) }
    ensures path { IfOk result (λ path. IsPrintedPath computation.now.events
        (test_of computation.now (predicate_view pred.now)) path.items) }
    ensures levels { IfOk result (λ _. held.new.levels.items ≡ []) }
    ensures no_fewer { IfOk result (λ _. held.old.most ≤ held.new.most) }
    ensures most { IfOk result (λ _. held.new.most
        ≤ max held.old.most (length held.old.levels.items + _gap + others held.old)) }
{
    let mut path = Vec::new(alloc);
    let mut cut = whole_cut(alloc, computation);
    let mut k = computation.total();
    while held.len() > 0 {
        cut = descend(crew, alloc, computation, pred, k, cut, held, &mut path)?;
        k = held.last().number();
        held.drop_last();
    }
    free_way(computation, pred, k, cut, &mut path)?;
    path.reverse();
    Ok(path)
}
