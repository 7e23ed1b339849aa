//! What the marks of a level decide.
ghost use Rattle.walk_back.specs.Counts.{others};
ghost use Rattle.walk_back.specs.Splits.{AreKeptBelow, IsSplitBelow};
ghost use Rattle.walk_marks.specs.Marks.{IsMarking};
ghost use Rattle.walk.specs.Stages.{counted};
ghost use Rattle.walk.specs.Tasks.{IsTask, StandsAt, task_events, task_test};
ghost use Rattle.std.specs.Prelude.{◌≡◌, ◌+◌, ◌≤◌, IfOk, []};

use super::stage::Stage;
use super::task::Task;
use pd_level::LevelKey;
use std::alloc::{AllocError, Global};
use walk_back::{Split, end_at, is_due};
use walk_marks::Marks;

/// What is known of a predicate after a level whose marks are these.
pub(crate) fn settle<K: LevelKey>(
    alloc: Global,
    task: &Task<'_, '_, '_, K>,
    split: Split,
    marks: Marks,
) -> Result<Stage, AllocError>
    requires task { IsTask task.now }
    requires split { IsSplitBelow (task_events task.now) (task_test task.now) task.now.width task.now.gap
        task.now.level.now.number split }
    requires walked { split.held.walked.items ≡ [] }
    requires marks { IsMarking (task_events task.now) (task_test task.now) task.now.level.now marks }
    ensures stands { IfOk result (StandsAt task.now task.now.level.now) }
    ensures no_fewer { IfOk result (λ stage. split.held.most ≤ counted stage) }
{
    // the laws that the proof uses
    def_model::definitely_walk();
    let mut split = split;
    split.held.stand_on(task.wholes)?;
    match end_at(marks.count(), task.level.number(), task.width) {
        Some(definitely) => Ok(Stage::Answered(split.answered(definitely))),
        None => {
            let split = keep(alloc, task, split, &marks)?;
            Ok(Stage::Marked { split, marks })
        }
    }
}

/// Keeps the level's avoiding cuts if it is the first one or comes a gap after the one kept last.
fn keep<K: LevelKey>(
    alloc: Global,
    task: &Task<'_, '_, '_, K>,
    split: Split,
    marks: &Marks,
) -> Result<Split, AllocError>
    requires task { IsTask task.now }
    requires kept { AreKeptBelow (task_events task.now) (task_test task.now) split.first task.now.gap
        task.now.level.now.number split.held.levels.items }
    requires few { split.held.most ≤ task.now.gap + 3 }
    requires beside { others split.held ≤ 2 }
    requires marks { IsMarking (task_events task.now) (task_test task.now) task.now.level.now marks.now }
    ensures kept { IfOk result (λ split. AreKeptBelow (task_events task.now) (task_test task.now) split.first
        task.now.gap (task.now.level.now.number + 1) split.held.levels.items) }
    ensures few { IfOk result (λ after. after.held.most ≤ task.now.gap + 3) }
    ensures no_fewer { IfOk result (λ after. split.held.most ≤ after.held.most) }
    ensures walked { IfOk result (λ after. after.held.walked.items ≡ split.held.walked.items) }
    ensures beside { IfOk result (λ after. after.held.beside ≡ split.held.beside) }
    ensures first { IfOk result (λ after. after.first ≡ split.first) }
    ensures possibly { IfOk result (λ after. after.possibly ≡ split.possibly) }
{
    let mut split = split;
    if !is_due(&split, task.level.number(), task.gap) {
        return Ok(split);
    }
    split.held.push(marks.to_level(alloc, task.level)?)?;
    Ok(split)
}
