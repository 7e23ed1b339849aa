//! The answers for one predicate.
ghost use Rattle.def_format.specs.Limits.{width_limit};
ghost use Rattle.walk_back.specs.Answers.{AreAnswers, IsLeastRoot, possibly_answer_view};
ghost use Rattle.def_model.specs.Answers.{IsPossiblyAnswer};
ghost use Rattle.def_model.specs.Cuts.{total};
ghost use Rattle.def_model.specs.Predicates.{test_of};
ghost use Rattle.pd_pred.specs.Views.{predicate_view};
ghost use Rattle.walk.specs.Stages.{possibly_known};
ghost use Rattle.std.specs.Prelude.{◌≡◌, ◌+◌, ◌*◌, ◌<◌, ◌≤◌, ℕ, IfOk, length};

use super::all::answer_all;
use super::setting::Setting;
use super::stage::Stage;
use super::walk::walk_up;
use pd_clock::Computation;
use pd_expand::Crew;
use pd_level::{Gate, LevelKey};
use pd_pred::Pred;
use std::alloc::{AllocError, Global};
use std::sync::Wait;
use std::thread::Threads;
use walk_back::{Answers, Held, Holder, PossiblyAnswer, least_root, possibly_by_lists};
use walk_keys::{Pair, SINGLE_LIMIT};
use walk_runs::Whole;

/// Both answers for a predicate over a computation, by one walk up the levels, under a width from 1 to its limit.
///
/// # Errors
/// An allocation was refused.
pub fn answer_one<T: Threads + Wait + Sync, G: Gate + Sync>(
    crew: &Crew<'_, '_, T, G>,
    alloc: Global,
    computation: &Computation<'_>,
    pred: &Pred,
    width: u64,
) -> Result<Answers, AllocError>
    requires wide { 1 ≤ width }
    requires narrow { width ≤ width_limit }
    ensures right { IfOk result (λ answers. (most : ℕ) × AreAnswers computation.now.events
        (test_of computation.now (predicate_view pred.now)) width most answers) }
    ensures few { IfOk result (λ answers. (s : ℕ) → IsLeastRoot s (total computation.now.events + 1)
        → answers.held.most ≤ 2 * s + 2) }
{
    let mut answers = answer_all(crew, alloc, computation, &[pred], width)?;
    Ok(answers.remove(0))
}

/// Whether some consistent cut satisfies a predicate, under a width from 1 on. The walk up the levels ends where this
/// is answered.
///
/// # Errors
/// An allocation was refused.
pub fn answer_possibly<T: Threads + Wait + Sync, G: Gate + Sync>(
    crew: &Crew<'_, '_, T, G>,
    alloc: Global,
    computation: &Computation<'_>,
    pred: &Pred,
    width: u64,
) -> Result<PossiblyAnswer, AllocError>
    requires wide { 1 ≤ width }
    ensures { IfOk result (λ answer. IsPossiblyAnswer computation.now.events
        (test_of computation.now (predicate_view pred.now)) width (possibly_answer_view answer)) }
{
    computation.limits();
    let processes = computation.processes();
    if processes < 2 {
        return possibly_listed(crew, alloc, computation, pred, width);
    }
    if width == u64::MAX {
        return possibly_listed(crew, alloc, computation, pred, width);
    }
    if processes <= SINGLE_LIMIT {
        return possibly_by_runs::<T, G, u128>(crew, alloc, computation, pred, width);
    }
    possibly_by_runs::<T, G, Pair>(crew, alloc, computation, pred, width)
}

/// The same by lists of cuts, however many processes there are.
fn possibly_listed<T: Threads + Wait + Sync, G: Gate + Sync>(
    crew: &Crew<'_, '_, T, G>,
    alloc: Global,
    computation: &Computation<'_>,
    pred: &Pred,
    width: u64,
) -> Result<PossiblyAnswer, AllocError>
    requires wide { 1 ≤ width }
    ensures { IfOk result (λ answer. IsPossiblyAnswer computation.now.events
        (test_of computation.now (predicate_view pred.now)) width (possibly_answer_view answer)) }
{
    let mut held = Holder::new(alloc);
    let answer = possibly_by_lists(crew, alloc, computation, pred, width, &mut held)?;
    Ok(answer)
}

/// The same for several processes, by whole levels of runs with this kind of key.
fn possibly_by_runs<T: Threads + Wait + Sync, G: Gate + Sync, K: LevelKey + Send + Sync>(
    crew: &Crew<'_, '_, T, G>,
    alloc: Global,
    computation: &Computation<'_>,
    pred: &Pred,
    width: u64,
) -> Result<PossiblyAnswer, AllocError>
    requires two { 2 ≤ length computation.now.events }
    requires fits { K.fits (length computation.now.events) }
    requires narrow { width < 18446744073709551615 }
    ensures { IfOk result (λ answer. IsPossiblyAnswer computation.now.events
        (test_of computation.now (predicate_view pred.now)) width (possibly_answer_view answer)) }
{
    // the laws that the proof uses
    def_model::possibly_walk();
    computation.limits();
    let gap = least_root(computation.total() + 1);
    let setting = Setting {
        crew,
        alloc,
        computation,
        width,
        gap,
    };
    let mut wholes: Held<Whole<K>> = Held::new(alloc);
    let mut stages = walk_up(&setting, &[pred], 0, &mut wholes)?;
    Ok(possibly_after(stages.remove(0)))
}

/// The answer for Possibly after the last level that is needed.
fn possibly_after(stage: Stage) -> PossiblyAnswer
    ensures { result ≡ possibly_known stage }
{
    match stage {
        Stage::Open => PossiblyAnswer::No,
        Stage::Marked { split, marks: _ } => split.possibly,
        Stage::Answered(answers) => answers.into_possibly(),
    }
}
