//! The predicates' turns in a round, drawn by several threads.
ghost use Rattle.walk.specs.Rounds.{AllStandAt, IsBeforeRound, IsRound};
ghost use Rattle.walk.specs.Stages.{counted};
ghost use Rattle.walk.specs.Turns.{AreDrawn, IsDrawn, IsKnown};
ghost use Rattle.walk.specs.declared.stage.Stage.TheVariants.{Open};
ghost use Rattle.std.specs.Prelude.{◌≡◌, ◌<◌, ◌≤◌, IfOk, length, slice_index_or};

use super::look::{go_on, look, see};
use super::round::Round;
use super::seen::Seen;
use super::stage::Stage;
use super::task::task_of;
use pd_level::LevelKey;
use std::alloc::{AllocError, Global};
use std::mem;
use std::thread::Threads;
use walk_keys::values_of;
use walk_runs::Whole;

/// What one thread sees of predicate `i` at the round's level. It doesn't look at one with more comparisons than
/// `most`.
fn draw<T: Threads + Sync, K: LevelKey + Send + Sync>(
    rt: &T,
    alloc: Global,
    round: &Round<'_, '_, '_, '_, K>,
    before: &Whole<K>,
    most: u64,
    i: usize,
    stage: &Stage,
) -> Result<Option<Seen>, AllocError>
    requires round { IsRound round.now }
    requires before { IsBeforeRound before.now round.now }
    requires within { i < length round.now.tests.now }
    requires known { IsKnown round.now before.now i stage.now }
    ensures { IfOk result (IsDrawn round.now before.now i stage.now) }
{
    if round.tests[i].comparisons() > most {
        return Ok(None);
    }
    let task = task_of(round, i, 1);
    let seen = see(rt, alloc, &task, before, stage)?;
    Ok(Some(seen))
}

/// The same for each predicate. They are drawn by at most as many threads as there are.
fn draw_all<T: Threads + Sync, K: LevelKey + Send + Sync>(
    rt: &T,
    alloc: Global,
    round: &Round<'_, '_, '_, '_, K>,
    before: &Whole<K>,
    most: u64,
    stages: &[Stage],
) -> Result<Vec<Result<Option<Seen>, AllocError>>, AllocError>
    requires round { IsRound round.now }
    requires before { IsBeforeRound before.now round.now }
    requires stand { AllStandAt round.now before.now stages.now }
    ensures { IfOk result (λ drawn. AreDrawn round.now before.now stages.now drawn.items) }
{
    let drawn = values_of(
        rt,
        round.threads,
        alloc,
        stages.len(),
        &|i: usize| -> Result<Option<Seen>, AllocError>
            requires { (i < length stages.now) × IsRound round.now × IsBeforeRound before.now round.now
                × AllStandAt round.now before.now stages.now }
            ensures { IfOk result (IsDrawn round.entry.now before.entry.now i
                (slice_index_or stages.entry.now i Open)) }
        { draw(rt, alloc, round, before, most, i, &stages[i]) },
    )?;
    Ok(drawn)
}

/// Puts what was seen of predicate `i` to what was known of it. If nothing was, it is looked at, and the threads share
/// it if it has much to evaluate.
fn end_turn<T: Threads + Sync, K: LevelKey + Send + Sync>(
    rt: &T,
    alloc: Global,
    round: &Round<'_, '_, '_, '_, K>,
    before: &Whole<K>,
    i: usize,
    drawn: Option<Seen>,
    stage: &mut Stage,
) -> Result<(), AllocError>
    requires round { IsRound round.now }
    requires before { IsBeforeRound before.now round.now }
    requires within { i < length round.now.tests.now }
    requires drawn { IsDrawn round.now before.now i stage.old drawn }
    ensures known { IfOk result (λ _. IsKnown round.now round.now.level.now i stage.new) }
    ensures no_fewer { IfOk result (λ _. counted stage.old ≤ counted stage.new) }
{
    match drawn {
        Some(seen) => {
            let task = task_of(round, i, 1);
            go_on(alloc, &task, stage, seen)?;
        }
        None => {
            let task = task_of(round, i, round.threads);
            look(rt, alloc, &task, before, stage)?;
        }
    }
    Ok(())
}

/// The same for each predicate, in their order.
///
/// # Errors
/// An allocation was refused, here or where a predicate was drawn.
fn end_all<T: Threads + Sync, K: LevelKey + Send + Sync>(
    rt: &T,
    alloc: Global,
    round: &Round<'_, '_, '_, '_, K>,
    before: &Whole<K>,
    drawn: &mut [Result<Option<Seen>, AllocError>],
    stages: &mut Vec<Stage>,
) -> Result<(), AllocError>
    requires round { IsRound round.now }
    requires before { IsBeforeRound before.now round.now }
    requires one_each { length stages.old.items ≡ length round.now.tests.now }
    requires drawn { AreDrawn round.now before.now stages.old.items drawn.old }
    ensures { IfOk result (λ _. AllStandAt round.now round.now.level.now stages.new.items) }
{
    for i in 0..round.tests.len() {
        let next = mem::replace(&mut drawn[i], Ok(None))?;
        end_turn(rt, alloc, round, before, i, next, &mut stages[i])?;
    }
    Ok(())
}

/// What is known of each predicate after the round's level. The predicates' turns are drawn by at most as many threads
/// as there are, but for those with more comparisons than `most`, which the threads share one after the other.
pub(crate) fn look_drawn<T: Threads + Sync, K: LevelKey + Send + Sync>(
    rt: &T,
    alloc: Global,
    round: &Round<'_, '_, '_, '_, K>,
    before: &Whole<K>,
    most: u64,
    stages: &mut Vec<Stage>,
) -> Result<(), AllocError>
    requires round { IsRound round.now }
    requires before { IsBeforeRound before.now round.now }
    requires stand { AllStandAt round.now before.now stages.old.items }
    ensures { IfOk result (λ _. AllStandAt round.now round.now.level.now stages.new.items) }
{
    let mut drawn = draw_all(rt, alloc, round, before, most, stages)?;
    end_all(rt, alloc, round, before, drawn.as_mut_slice(), stages)
}
