//! The avoiding cuts of a level.
ghost use Rattle.walk_back.specs.Ways.{IsAvoidingLevel};
ghost use Rattle.def_model.specs.Answers.{IsListOf};
ghost use Rattle.def_model.specs.Cuts.{IsConsistent, IsNextOf};
ghost use Rattle.def_model.specs.Predicates.{test_of};
ghost use Rattle.pd_pred.specs.Views.{predicate_view};
ghost use Rattle.std.specs.Prelude.{◌≡◌, ◌+◌, ◌<◌, All, IfOk, filter, not};

use pd_clock::Computation;
use pd_expand::Crew;
use pd_level::{Gate, Level, LevelFault};
use pd_pred::Pred;
use std::alloc::{AllocError, Global};
use std::sync::Wait;
use std::thread::Threads;

/// The avoiding cuts of level 0.
///
/// # Errors
/// An allocation was refused.
pub fn first_avoiding(
    alloc: Global,
    computation: &Computation<'_>,
    pred: &Pred,
) -> Result<Level, AllocError>
    ensures list { IfOk result (λ level.
        IsAvoidingLevel computation.now.events (test_of computation.now (predicate_view pred.now)) level) }
    ensures number { IfOk result (λ level. level.number ≡ 0) }
{
    // the laws that the proof uses
    def_model::levels();
    def_model::avoiding_levels();
    let mut level = Level::first(alloc, computation)?;
    let mark = level.holds(computation, pred, 0);
    level.keep(&[mark], false);
    Ok(level)
}

/// The avoiding cuts of the next level, from those of a level. The crew shares the work.
///
/// # Errors
/// An allocation was refused, or there might be more cuts than a `u64` counts.
pub fn next_avoiding<T: Threads + Wait + Sync, G: Gate + Sync>(
    crew: &Crew<'_, '_, T, G>,
    alloc: Global,
    computation: &Computation<'_>,
    pred: &Pred,
    level: &Level,
) -> Result<Level, AllocError>
    requires list { IsAvoidingLevel computation.now.events
        (test_of computation.now (predicate_view pred.now)) level.now }
    requires low { level.now.number < 18446744073709551615 }
    ensures list { IfOk result (λ next.
        IsAvoidingLevel computation.now.events (test_of computation.now (predicate_view pred.now)) next) }
    ensures number { IfOk result (λ next. next.number ≡ level.now.number + 1) }
{
    // the laws that the proof uses
    def_model::avoiding_levels();
    let whole = next_of_any(crew, alloc, computation, level)?;
    let next = without_satisfying(crew, alloc, computation, pred, whole)?;
    Ok(next)
}

/// The cuts that have one event more than one of the level's, however many they are. The crew shares the work.
///
/// # Errors
/// An allocation was refused, or there might be more cuts than a `u64` counts.
pub fn next_of_any<T: Threads + Wait + Sync, G: Gate + Sync>(
    crew: &Crew<'_, '_, T, G>,
    alloc: Global,
    computation: &Computation<'_>,
    level: &Level,
) -> Result<Level, AllocError>
    requires cuts { All (IsConsistent computation.now.events) level.now.cuts }
    requires low { level.now.number < 18446744073709551615 }
    ensures list { IfOk result (λ next. IsListOf (IsNextOf computation.now.events level.now.cuts) next.cuts) }
    ensures number { IfOk result (λ next. next.number ≡ level.now.number + 1) }
{
    computation.limits();
    let cuts = (level.len() as u64).max(1);
    let Some(most) = cuts.checked_mul(computation.processes() as u64) else {
        return Err(AllocError);
    };
    match crew.next(alloc, computation, level, most) {
        Ok(whole) => Ok(whole),
        Err(LevelFault::Memory) => Err(AllocError),
        Err(LevelFault::Wide) => unreachable!(),
    }
}

/// The level without the cuts that satisfy.
fn without_satisfying<T: Threads + Wait + Sync, G: Gate + Sync>(
    crew: &Crew<'_, '_, T, G>,
    alloc: Global,
    computation: &Computation<'_>,
    pred: &Pred,
    mut level: Level,
) -> Result<Level, AllocError>
    requires { All (IsConsistent computation.now.events) level.cuts }
    ensures cuts { IfOk result (λ left. left.cuts
        ≡ filter (λ cut. not (test_of computation.now (predicate_view pred.now) cut)) level.cuts) }
    ensures number { IfOk result (λ left. left.number ≡ level.number) }
{
    let marks = crew.marks(alloc, computation, pred, &level)?;
    level.keep(&marks, false);
    Ok(level)
}
