//! The answer for Possibly by lists of cuts, which serve any computation.
ghost use Rattle.walk_back.specs.Answers.{IsFirstIn, possibly_answer_view};
ghost use Rattle.def_model.specs.Answers.{IsPossiblyAnswer};
ghost use Rattle.def_model.specs.Cuts.{IsConsistent};
ghost use Rattle.def_model.specs.Predicates.{test_of};
ghost use Rattle.pd_pred.specs.Views.{predicate_view};
ghost use Rattle.std.specs.Prelude.{◌≡◌, ◌+◌, ◌≤◌, false, All, Err, IfErr, IfOk, IfNone, IfSome, [], ◌∷◌, length, map, max, MatchOption, Ok};

use super::PossiblyAnswer;
use super::holder::Holder;
use pd_clock::{Computation, Cut};
use pd_expand::Crew;
use pd_level::{Gate, Level, LevelFault};
use pd_pred::Pred;
use std::alloc::{AllocError, Global};
use std::sync::Wait;
use std::thread::Threads;

/// Whether some consistent cut satisfies a predicate, under a width from 1 on. The holder, by which no list is walked,
/// counts the levels that are walked for it, two at once; after that it holds what it held before.
///
/// # Errors
/// An allocation was refused.
pub fn possibly_by_lists<T: Threads + Wait + Sync, G: Gate + Sync>(
    crew: &Crew<'_, '_, T, G>,
    alloc: Global,
    computation: &Computation<'_>,
    pred: &Pred,
    width: u64,
    held: &mut Holder,
) -> Result<PossiblyAnswer, AllocError>
    requires wide { 1 ≤ width }
    requires fresh { held.old.walked.items ≡ [] }
    ensures answer { IfOk result (λ answer. IsPossiblyAnswer computation.now.events
        (test_of computation.now (predicate_view pred.now)) width (possibly_answer_view answer)) }
    ensures levels { held.new.levels.items ≡ held.old.levels.items }
    ensures walked { IfOk result (λ _. held.new.walked.items ≡ []) }
    ensures beside { held.new.beside ≡ held.old.beside }
    ensures no_fewer { IfOk result (λ _. held.old.most ≤ held.new.most) }
    ensures most { IfOk result (λ _. held.new.most
        ≤ max held.old.most (length held.old.levels.items + held.old.beside + 2)) }
{
    let answer = walk_for_possibly(crew, alloc, computation, pred, width, held)?;
    held.end_walk();
    Ok(answer)
}

/// The same. The last list that is walked stays.
fn walk_for_possibly<T: Threads + Wait + Sync, G: Gate + Sync>(
    crew: &Crew<'_, '_, T, G>,
    alloc: Global,
    computation: &Computation<'_>,
    pred: &Pred,
    width: u64,
    held: &mut Holder,
) -> Result<PossiblyAnswer, AllocError>
    requires wide { 1 ≤ width }
    requires fresh { held.old.walked.items ≡ [] }
    ensures answer { IfOk result (λ answer. IsPossiblyAnswer computation.now.events
        (test_of computation.now (predicate_view pred.now)) width (possibly_answer_view answer)) }
    ensures levels { held.new.levels.items ≡ held.old.levels.items }
    ensures beside { held.new.beside ≡ held.old.beside }
    ensures no_fewer { IfOk result (λ _. held.old.most ≤ held.new.most) }
    ensures most { IfOk result (λ _. held.new.most
        ≤ max held.old.most (length held.old.levels.items + held.old.beside + 2)) }
{
    // the laws that the proof uses
    def_model::levels();
    def_model::possibly_walk();
    computation.limits();
    let total = computation.total();
    let first = Level::first(alloc, computation)?;
    held.walk(first)?;
    for k in 0..total + 1 {
        let level = held.at();
        match first_satisfying(crew, alloc, computation, pred, level)? {
            Some(cut) => return Ok(PossiblyAnswer::Yes(cut)),
            None => {}
        }
        match unless_wide(crew.next(alloc, computation, level, width))? {
            Some(next) => go_to(held, next)?,
            None => return Ok(PossiblyAnswer::Unknown(k + 1)),
        }
    }
    Ok(PossiblyAnswer::No)
}

/// Walks on to the next list, and lets go of the one before it.
fn go_to(held: &mut Holder, next: Level) -> Result<(), AllocError>
    requires one { length held.old.walked.items ≡ 1 }
    ensures walked { IfOk result (λ _. held.new.walked.items ≡ next ∷ []) }
    ensures levels { held.new.levels.items ≡ held.old.levels.items }
    ensures beside { held.new.beside ≡ held.old.beside }
    ensures most { IfOk result (λ _. held.new.most
        ≡ max held.old.most (length held.old.levels.items + held.old.beside + 2)) }
{
    held.walk(next)?;
    held.leave();
    Ok(())
}

/// The next level, or none exactly if it is too wide. It fails exactly where the level did so out of memory.
fn unless_wide(next: Result<Level, LevelFault>) -> Result<Option<Level>, AllocError>
    ensures found { IfOk result (λ found.
        MatchOption found (next ≡ Err LevelFault.Wide) (λ level. next ≡ Ok level)) }
    ensures memory { IfErr result (λ _. next ≡ Err LevelFault.Memory) }
{
    match next {
        Ok(level) => Ok(Some(level)),
        Err(LevelFault::Wide) => Ok(None),
        Err(LevelFault::Memory) => Err(AllocError),
    }
}

/// The first cut of the level that satisfies. If the level has enough cuts for several workers, all of them are tested.
fn first_satisfying<T: Threads + Wait + Sync, G: Gate + Sync>(
    crew: &Crew<'_, '_, T, G>,
    alloc: Global,
    computation: &Computation<'_>,
    pred: &Pred,
    level: &Level,
) -> Result<Option<Cut>, AllocError>
    requires { All (IsConsistent computation.now.events) level.now.cuts }
    ensures found { IfOk result (λ found. IfSome found
        (IsFirstIn (test_of computation.now (predicate_view pred.now)) level.now.cuts)) }
    ensures none { IfOk result (λ found. IfNone found
        (All (λ cut. test_of computation.now (predicate_view pred.now) cut ≡ false) level.now.cuts)) }
{
    if crew.shares(level.len()) {
        let marks = crew.marks(alloc, computation, pred, level)?;
        return Ok(first_marked(alloc, computation, pred, level, &marks));
    }
    Ok(first_in_turn(alloc, computation, pred, level))
}

/// The same, by the marks of all cuts. It takes no memory.
fn first_marked(
    alloc: Global,
    _computation: &Computation<'_>,
    _pred: &Pred,
    level: &Level,
    marks: &[bool],
) -> Option<Cut>
    requires { marks.now ≡ map (test_of _computation.now (predicate_view _pred.now)) level.now.cuts }
    ensures found { IfSome result (IsFirstIn (test_of _computation.now (predicate_view _pred.now)) level.now.cuts) }
    ensures none { IfNone result (All (λ cut. test_of _computation.now (predicate_view _pred.now) cut ≡ false)
        level.now.cuts) }
{
    for i in 0..marks.len() {
        if marks[i] {
            return Some(level.cut(alloc, i));
        }
    }
    None
}

/// The same, one cut after the other as far as the first one. It takes no memory.
fn first_in_turn(
    alloc: Global,
    computation: &Computation<'_>,
    pred: &Pred,
    level: &Level,
) -> Option<Cut>
    requires { All (IsConsistent computation.now.events) level.now.cuts }
    ensures found { IfSome result (IsFirstIn (test_of computation.now (predicate_view pred.now)) level.now.cuts) }
    ensures none { IfNone result (All (λ cut. test_of computation.now (predicate_view pred.now) cut ≡ false)
        level.now.cuts) }
{
    for i in 0..level.len() {
        if level.holds(computation, pred, i) {
            return Some(level.cut(alloc, i));
        }
    }
    None
}
