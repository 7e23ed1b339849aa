//! Several workers that share the work on a level.
ghost use Rattle.def_format.specs.Limits.{worker_limit};
ghost use Rattle.def_model.specs.Answers.{IsListOf, MoreThan};
ghost use Rattle.def_model.specs.Cuts.{IsConsistent, IsNextOf};
ghost use Rattle.def_model.specs.Predicates.{test_of};
ghost use Rattle.pd_pred.specs.Views.{predicate_view};
ghost use Rattle.std.specs.Prelude.{◌≡◌, ◌+◌, ◌≤◌, All, Err, IfOk, length, map, min};

use crate::expanding::next_level;
use crate::marking;
use pd_clock::Computation;
use pd_level::{Gate, Level, LevelFault, Reached};
use pd_pred::Pred;
use std::alloc::{AllocError, Global};
use std::sync::Wait;
use std::thread::Threads;

/// From this many cuts on the work on a level is shared. A thread takes tens of microseconds to start, in which one
/// worker has expanded a level of a few thousand cuts.
const SHARED_CUTS: usize = 4096;

/// From 1 to 16 workers, which share the work on a level if it has enough cuts, and the gate that each passes before
/// it expands a block.
#[derive(Drop)]
pub struct Crew<'a, 'b, T, G> {
    rt: &'a T,
    workers: u64,
    gate: &'b G,
    ghost some_workers: { 1 ≤ workers },
    ghost few_workers: { workers ≤ worker_limit },
}

impl<'a, 'b, T: Threads + Wait + Sync, G: Gate + Sync> Crew<'a, 'b, T, G> {
    /// This many workers, each on a thread of its own, that pass the gate.
    pub fn new(rt: &'a T, workers: u64, gate: &'b G) -> Crew<'a, 'b, T, G>
        requires some_workers { 1 ≤ workers }
        requires few_workers { workers ≤ worker_limit }
    {
        Crew { rt, workers, gate }
    }

    /// What starts the threads.
    pub fn runtime(&self) -> &T {
        self.rt
    }

    /// How many workers there are.
    pub fn count(&self) -> u64
        ensures { 1 ≤ result }
    {
        self.workers
    }

    /// Whether the work on a level with this many cuts is shared: there are several workers, and it is worth their
    /// threads.
    pub fn shares(&self, cuts: usize) -> bool {
        self.workers > 1 && cuts >= SHARED_CUTS
    }

    /// The cuts that have one event more than one of the level's, as `Level::next` gives them: the workers find them if
    /// the level has enough cuts.
    ///
    /// # Errors
    /// `Wide` says that there are more, and `Memory` that an allocation was refused.
    pub fn next(
        &self,
        alloc: Global,
        computation: &Computation<'_>,
        level: &Level,
        width: u64,
    ) -> Result<Level, LevelFault>
        requires cuts { All (IsConsistent computation.now.events) level.now.cuts }
        requires wide { 1 ≤ width }
        ensures list { IfOk result (λ next. IsListOf (IsNextOf computation.now.events level.now.cuts) next.cuts) }
        ensures narrow { IfOk result (λ next. length next.cuts ≤ width) }
        ensures number { IfOk result (λ next. next.number ≡ min (level.now.number + 1) 18446744073709551615) }
        ensures wide { result ≡ Err LevelFault.Wide → MoreThan width (IsNextOf computation.now.events level.now.cuts) }
    {
        let next = self.next_of(alloc, computation, level, width)?;
        self.reach(Reached {
            number: next.number(),
            last: computation.total(),
            cuts: next.len() as u64,
            is_whole: false,
        });
        Ok(next)
    }

    /// The same, of which no gate hears.
    fn next_of(
        &self,
        alloc: Global,
        computation: &Computation<'_>,
        level: &Level,
        width: u64,
    ) -> Result<Level, LevelFault>
        requires cuts { All (IsConsistent computation.now.events) level.now.cuts }
        requires wide { 1 ≤ width }
        ensures list { IfOk result (λ next. IsListOf (IsNextOf computation.now.events level.now.cuts) next.cuts) }
        ensures narrow { IfOk result (λ next. length next.cuts ≤ width) }
        ensures number { IfOk result (λ next. next.number ≡ min (level.now.number + 1) 18446744073709551615) }
        ensures wide { result ≡ Err LevelFault.Wide → MoreThan width (IsNextOf computation.now.events level.now.cuts) }
    {
        if self.shares(level.len()) {
            return next_level(
                self.rt,
                alloc,
                computation,
                level,
                width,
                self.workers,
                self.gate,
            );
        }
        Level::next(alloc, computation, level, width)
    }

    /// Says at the gate that a walk has come to this level.
    pub fn reach(&self, level: Reached) {
        self.gate.reach(level);
    }

    /// Says at the gate that a predicate is answered beyond the width: which one, counted from 1, and of how many.
    pub fn ask(&self, number: u64, count: u64) {
        self.gate.ask(number, count);
    }

    /// Of each cut of the level whether the predicate is true at its state, in the order of the cuts.
    ///
    /// # Errors
    /// An allocation was refused.
    pub fn marks(
        &self,
        alloc: Global,
        computation: &Computation<'_>,
        pred: &Pred,
        level: &Level,
    ) -> Result<Vec<bool>, AllocError>
        requires { All (IsConsistent computation.now.events) level.now.cuts }
        ensures { IfOk result (λ marks. marks.items
            ≡ map (test_of computation.now (predicate_view pred.now)) level.now.cuts) }
    {
        if self.shares(level.len()) {
            return marking::marks(self.rt, alloc, computation, pred, level);
        }
        marks_in_turn(alloc, computation, pred, level)
    }
}

/// The same, one cut after the other.
fn marks_in_turn(
    alloc: Global,
    computation: &Computation<'_>,
    pred: &Pred,
    level: &Level,
) -> Result<Vec<bool>, AllocError>
    requires { All (IsConsistent computation.now.events) level.now.cuts }
    ensures { IfOk result (λ marks. marks.items
        ≡ map (test_of computation.now (predicate_view pred.now)) level.now.cuts) }
{
    let mut marks = Vec::with_capacity(alloc, level.len())?;
    for i in 0..level.len() {
        marks.push(level.holds(computation, pred, i))?;
    }
    Ok(marks)
}
