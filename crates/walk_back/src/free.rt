//! The way down where every cut avoids.
//!
//! A process is free if its last event can be undone. Where an event is undone, this changes for no process but its own
//! and, if it is a receipt whose send is the last event of another process, for that one. So a word with a bit for each
//! process is kept along the way, and the clocks are asked of these two alone.
ghost use Rattle.walk_back.specs.Ways.{AreFree, IsReached, LeavesConsistent};
ghost use Rattle.walk_keys.specs.Words.{has_bit};
ghost use Rattle.def_model.specs.Answers.{IsUndoing};
ghost use Rattle.def_model.specs.Cuts.{IsConsistent, full_cut, one_less};
ghost use Rattle.def_model.specs.Predicates.{test_of};
ghost use Rattle.def_model.specs.Walks.{NoneBelow};
ghost use Rattle.pd_pred.specs.Views.{predicate_view};
ghost use Rattle.std.specs.Prelude.{◌≡◌, ◌≢◌, ◌<◌, ◌↔◌, ℕ, IfOk, IsTrue, length, sum};

use pd_clock::{Computation, Cut, Place};
use pd_pred::Pred;
use std::alloc::AllocError;
use walk_keys::bits::{least, with, without, words};

/// The word with bit `j` set exactly if `truth` holds, and all others as they are.
fn put(word: u64, j: u64, truth: bool) -> u64
    requires { j < 64 }
    ensures bit { has_bit result j ≡ truth }
    ensures others { (i : ℕ) → i ≢ j → has_bit result i ≡ has_bit word i }
{
    if truth {
        with(word, j)
    } else {
        without(word, with(0, j))
    }
}

/// The word with the bit of process `p` set exactly if it is free at the cut, and all others as they are.
fn look_again(free: u64, computation: &Computation<'_>, cut: &Cut, p: usize) -> u64
    requires consistent { IsConsistent computation.now.events cut.now }
    requires within { p < length computation.now.events }
    ensures bit { IsTrue (has_bit result p) ↔ LeavesConsistent computation.now.events cut.now p }
    ensures others { (i : ℕ) → i ≢ p → has_bit result i ≡ has_bit free i }
{
    computation.limits();
    put(free, p as u64, computation.can_undo(cut, p))
}

/// The processes that are free at the cut, a bit each.
fn free_processes(computation: &Computation<'_>, cut: &Cut) -> u64
    requires { IsConsistent computation.now.events cut.now }
    ensures { AreFree computation.now.events cut.now result }
{
    let mut free = 0;
    for p in 0..computation.processes() {
        free = look_again(free, computation, cut, p);
    }
    free
}

/// Undoes the last event of process `p`, and gives the processes that are free then.
fn undo_free(free: u64, computation: &Computation<'_>, cut: &mut Cut, p: usize) -> u64
    requires consistent { IsConsistent computation.now.events cut.old }
    requires leaves { LeavesConsistent computation.now.events cut.old p }
    requires free { AreFree computation.now.events cut.old free }
    ensures less { cut.new ≡ one_less cut.old p }
    ensures free { AreFree computation.now.events cut.new result }
{
    computation.limits();
    let last = Place {
        process: p,
        number: cut.counts()[p],
    };
    cut.undo(p);
    let rest = look_again(free, computation, cut, p);
    match computation.sender(last) {
        Some(send) => {
            if send.number == cut.counts()[send.process] {
                look_again(rest, computation, cut, send.process)
            } else {
                rest
            }
        }
        None => rest,
    }
}

/// The least process that is free.
fn least_free(free: u64, computation: &Computation<'_>, cut: &Cut) -> usize
    requires some { (p : ℕ) × LeavesConsistent computation.now.events cut.now p }
    requires free { AreFree computation.now.events cut.now free }
    ensures leaves { LeavesConsistent computation.now.events cut.now result }
    ensures least { (q : ℕ) → q < result → ¬ LeavesConsistent computation.now.events cut.now q }
{
    words(free);
    least(free) as usize
}

/// The way from a cut of level `k` to the empty cut, if no cut of a lower level satisfies. The predicate is there for
/// the contract alone.
pub(crate) fn free_way(
    computation: &Computation<'_>,
    _pred: &Pred,
    k: u64,
    cut: Cut,
    path: &mut Vec<usize>,
) -> Result<(), AllocError>
    requires number { sum cut ≡ k }
    requires none_below { NoneBelow computation.now.events
        (test_of computation.now (predicate_view _pred.now)) k }
    requires reached { IsReached computation.now.events
        (test_of computation.now (predicate_view _pred.now)) path.old.items cut }
    ensures { IfOk result (λ _. IsUndoing computation.now.events
        (test_of computation.now (predicate_view _pred.now)) (full_cut computation.now.events) path.new.items) }
{
    computation.limits();
    let mut events = k;
    let mut cut = cut;
    let mut free = free_processes(computation, &cut);
    while events > 0 {
        events -= 1;
        let p = least_free(free, computation, &cut);
        path.push(p)?;
        free = undo_free(free, computation, &mut cut, p);
    }
    Ok(())
}
