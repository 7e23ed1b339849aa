//! How a predicate goes on from one level to the next.
ghost use Rattle.walk_back.specs.Answers.{possibly_answer_view};
ghost use Rattle.walk_marks.specs.Marks.{IsMarking};
ghost use Rattle.def_model.specs.Answers.{IsFirstSatisfying, IsPossiblyAnswer};
ghost use Rattle.def_model.specs.Cuts.{IsOfLevel};
ghost use Rattle.def_model.specs.Walks.{NoneBelow};
ghost use Rattle.walk.specs.Seen.{IsSeenAt};
ghost use Rattle.walk.specs.Stages.{IsOpenBelow, counted};
ghost use Rattle.walk.specs.declared.seen.Seen.TheVariants.{Next};
ghost use Rattle.walk.specs.declared.stage.Stage.TheVariants.{Open};
ghost use Rattle.walk.specs.Tasks.{IsBeforeTask, IsTask, StandsAt, task_events, task_test};
ghost use Rattle.std.specs.Prelude.{◌≡◌, ◌+◌, ◌≤◌, ℕ, IfNone, IfOk, IfSome, List, false, true};

use super::seen::Seen;
use super::settle::settle;
use super::stage::Stage;
use super::task::Task;
use pd_clock::Cut;
use pd_level::LevelKey;
use std::alloc::{AllocError, Global};
use std::mem;
use std::thread::Threads;
use walk_back::{Holder, PossiblyAnswer, Split};
use walk_marks::{Marks, first_hit, first_hit_by_threads, next, next_by_threads, unsatisfying};
use walk_runs::Whole;

/// The first cut of the level that satisfies, by the task's threads if they are several.
fn first_hit_of<T: Threads + Sync, K: LevelKey + Send + Sync>(
    rt: &T,
    alloc: Global,
    task: &Task<'_, '_, '_, K>,
) -> Result<Option<Cut>, AllocError>
    requires { IsTask task.now }
    ensures level { IfOk result (λ found. IfSome found (IsOfLevel (task_events task.now) task.now.level.now.number)) }
    ensures satisfies { IfOk result (λ found. IfSome found (λ cut. task_test task.now cut ≡ true)) }
    ensures first { IfOk result (λ found. IfSome found (λ cut.
        NoneBelow (task_events task.now) (task_test task.now) task.now.level.now.number
        → IsFirstSatisfying (task_events task.now) (task_test task.now) cut)) }
    ensures none { IfOk result (λ found. IfNone found ((cut : List ℕ)
        → IsOfLevel (task_events task.now) task.now.level.now.number cut → task_test task.now cut ≡ false)) }
{
    if task.threads > 1 {
        return first_hit_by_threads(rt, task.threads, alloc, task.level, task.test, task.skips);
    }
    Ok(first_hit(alloc, task.level, task.test, task.skips))
}

/// The marks of the level, from those of the level before, by the task's threads if they are several.
fn next_of<T: Threads + Sync, K: LevelKey + Send + Sync>(
    rt: &T,
    alloc: Global,
    task: &Task<'_, '_, '_, K>,
    before: &Whole<K>,
    marks: &Marks,
) -> Result<Marks, AllocError>
    requires task { IsTask task.now }
    requires before { IsBeforeTask before.now task.now }
    requires marks { IsMarking (task_events task.now) (task_test task.now) before.now marks.now }
    ensures { IfOk result (IsMarking (task_events task.now) (task_test task.now) task.now.level.now) }
{
    if task.threads > 1 {
        return next_by_threads(
            rt,
            task.threads,
            alloc,
            before,
            marks,
            task.level,
            task.test,
            task.skips,
        );
    }
    next(alloc, before, marks, task.level, task.test, task.skips)
}

/// What becomes known of a predicate at a level, if before it none satisfied: nothing if none does there either.
fn look_open<T: Threads + Sync, K: LevelKey + Send + Sync>(
    rt: &T,
    alloc: Global,
    task: &Task<'_, '_, '_, K>,
) -> Result<Option<Stage>, AllocError>
    requires task { IsTask task.now }
    requires opened { IsOpenBelow (task_events task.now) (task_test task.now) task.now.width
        task.now.level.now.number }
    ensures found { IfOk result (λ found. IfSome found (StandsAt task.now task.now.level.now)) }
    ensures none { IfOk result (λ found. IfNone found (StandsAt task.now task.now.level.now Open)) }
{
    // the laws that the proof uses
    def_model::levels();
    def_model::avoidance();
    let found = possibly_at(rt, alloc, task)?;
    let Some(possibly) = found else {
        return Ok(None);
    };
    let marks = unsatisfying(alloc, task.level, task.test, task.skips)?;
    let split = Split {
        possibly,
        first: task.level.number(),
        held: Holder::new(alloc),
    };
    let stage = settle(alloc, task, split, marks)?;
    Ok(Some(stage))
}

/// What is known of a predicate after a level, if before it none satisfied.
pub(crate) fn stage_at<T: Threads + Sync, K: LevelKey + Send + Sync>(
    rt: &T,
    alloc: Global,
    task: &Task<'_, '_, '_, K>,
) -> Result<Stage, AllocError>
    requires task { IsTask task.now }
    requires opened { IsOpenBelow (task_events task.now) (task_test task.now) task.now.width
        task.now.level.now.number }
    ensures { IfOk result (StandsAt task.now task.now.level.now) }
{
    match look_open(rt, alloc, task)? {
        Some(stage) => Ok(stage),
        None => Ok(Stage::Open),
    }
}

/// The answer for Possibly, if it is found at this level: unknown if the level is too wide, and else its first
/// satisfying cut.
fn possibly_at<T: Threads + Sync, K: LevelKey + Send + Sync>(
    rt: &T,
    alloc: Global,
    task: &Task<'_, '_, '_, K>,
) -> Result<Option<PossiblyAnswer>, AllocError>
    requires task { IsTask task.now }
    requires opened { IsOpenBelow (task_events task.now) (task_test task.now) task.now.width
        task.now.level.now.number }
    ensures found { IfOk result (λ found. IfSome found (λ answer. IsPossiblyAnswer (task_events task.now)
        (task_test task.now) task.now.width (possibly_answer_view answer))) }
    ensures none { IfOk result (λ found. IfNone found (IsOpenBelow (task_events task.now) (task_test task.now)
        task.now.width (task.now.level.now.number + 1))) }
{
    // the laws that the proof uses
    def_model::possibly_walk();
    walk_runs::laws::whole_levels();
    if task.level.cuts() > task.width {
        return Ok(Some(PossiblyAnswer::Unknown(task.level.number())));
    }
    let first = first_hit_of(rt, alloc, task)?;
    match first {
        Some(cut) => Ok(Some(PossiblyAnswer::Yes(cut))),
        None => Ok(None),
    }
}

/// What is seen of a predicate at the next level, if this was known of it before.
pub(crate) fn see<T: Threads + Sync, K: LevelKey + Send + Sync>(
    rt: &T,
    alloc: Global,
    task: &Task<'_, '_, '_, K>,
    before: &Whole<K>,
    stage: &Stage,
) -> Result<Seen, AllocError>
    requires task { IsTask task.now }
    requires before { IsBeforeTask before.now task.now }
    requires stands { StandsAt task.now before.now stage.now }
    ensures { IfOk result (IsSeenAt task.now stage.now) }
{
    match stage {
        Stage::Open => match look_open(rt, alloc, task)? {
            Some(next) => Ok(Seen::First(next)),
            None => Ok(Seen::Nothing),
        },
        Stage::Marked { split: _, marks } => {
            Ok(Seen::Next(next_of(rt, alloc, task, before, marks)?))
        }
        Stage::Answered(_) => Ok(Seen::Nothing),
    }
}

/// What is known of a predicate after a level with these marks, if this was known of it before.
fn with_marks<K: LevelKey>(
    alloc: Global,
    task: &Task<'_, '_, '_, K>,
    stage: Stage,
    marks: Marks,
) -> Result<Stage, AllocError>
    requires task { IsTask task.now }
    requires seen { IsSeenAt task.now stage (Next marks) }
    ensures stands { IfOk result (StandsAt task.now task.now.level.now) }
    ensures no_fewer { IfOk result (λ after. counted stage ≤ counted after) }
{
    match stage {
        Stage::Marked { split, marks: _ } => settle(alloc, task, split, marks),
        Stage::Open => Ok(Stage::Open),
        Stage::Answered(answers) => Ok(Stage::Answered(answers)),
    }
}

/// Puts what was seen of a predicate at a level to what was known of it before. What doesn't change isn't moved.
pub(crate) fn go_on<K: LevelKey>(
    alloc: Global,
    task: &Task<'_, '_, '_, K>,
    stage: &mut Stage,
    seen: Seen,
) -> Result<(), AllocError>
    requires task { IsTask task.now }
    requires seen { IsSeenAt task.now stage.old seen }
    ensures stands { IfOk result (λ _. StandsAt task.now task.now.level.now stage.new) }
    ensures no_fewer { IfOk result (λ _. counted stage.old ≤ counted stage.new) }
{
    match seen {
        Seen::Nothing => {}
        Seen::First(next) => *stage = next,
        Seen::Next(marks) => {
            let known = mem::replace(stage, Stage::Open);
            *stage = with_marks(alloc, task, known, marks)?;
        }
    }
    Ok(())
}

/// Looks at a predicate at the next level: what is known of it after that takes the place of what was known before.
pub(crate) fn look<T: Threads + Sync, K: LevelKey + Send + Sync>(
    rt: &T,
    alloc: Global,
    task: &Task<'_, '_, '_, K>,
    before: &Whole<K>,
    stage: &mut Stage,
) -> Result<(), AllocError>
    requires task { IsTask task.now }
    requires before { IsBeforeTask before.now task.now }
    requires stands { StandsAt task.now before.now stage.old }
    ensures stands { IfOk result (λ _. StandsAt task.now task.now.level.now stage.new) }
    ensures no_fewer { IfOk result (λ _. counted stage.old ≤ counted stage.new) }
{
    let seen = see(rt, alloc, task, before, stage)?;
    go_on(alloc, task, stage, seen)
}
