//! The walk up the whole levels.
ghost use Rattle.def_model.specs.Cuts.{total};
ghost use Rattle.walk.specs.Rounds.{AllStandAt, IsBeforeRound, IsRound};
ghost use Rattle.walk.specs.Stages.{AreCompiled, AreFor, HasComeTo, HasEnded, number_held};
ghost use Rattle.walk.specs.declared.stage.Stage.{Stage};
ghost use Rattle.walk.specs.declared.stage.Stage.TheVariants.{Open};
ghost use Rattle.std.specs.Prelude.{◌≡◌, ◌+◌, ◌<◌, ◌≤◌, ℕ, IfOk, IsTrue, [], false, length, slice_index_or};

use super::look::{look, stage_at};
use super::round::Round;
use super::setting::Setting;
use super::stage::Stage;
use super::task::task_of;
use super::turns::look_drawn;
use super::worth::{is_much, most_drawn, unanswered, weight};
use pd_clock::Computation;
use pd_level::{Gate, LevelKey, Reached};
use pd_pred::Pred;
use std::alloc::{AllocError, Global};
use std::sync::Wait;
use std::thread::Threads;
use walk_back::Held;
use walk_marks::SkippedRuns;
use walk_runs::{Steps, Whole};
use walk_tables::Compiled;

/// How many bytes the tables of all predicates may take together.
pub(crate) const TABLE_BYTES: usize = 67_108_864;

/// What is known of each predicate after the next level. If the predicates have much to evaluate there, several workers
/// draw their turns; if there are fewer of them than workers, the workers share each one that has much to evaluate.
fn look_all<T: Threads + Sync, K: LevelKey + Send + Sync>(
    rt: &T,
    alloc: Global,
    round: &Round<'_, '_, '_, '_, K>,
    before: &Whole<K>,
    stages: &mut Vec<Stage>,
) -> Result<(), AllocError>
    requires round { IsRound round.now }
    requires before { IsBeforeRound before.now round.now }
    requires stand { AllStandAt round.now before.now stages.old.items }
    ensures { IfOk result (λ _. AllStandAt round.now round.now.level.now stages.new.items) }
{
    let threads = round.threads as u64;
    if threads > 1 && unanswered(stages) >= threads {
        let cuts = round.level.cuts();
        let most = most_drawn(weight(round.tests, stages, u64::MAX), cuts);
        if is_much(weight(round.tests, stages, most), cuts) {
            return look_drawn(rt, alloc, round, before, most, stages);
        }
    }
    look_in_turn(rt, alloc, round, before, stages)
}

/// The same, one predicate after the other. If there are several threads, they share a predicate that has much to
/// evaluate there.
fn look_in_turn<T: Threads + Sync, K: LevelKey + Send + Sync>(
    rt: &T,
    alloc: Global,
    round: &Round<'_, '_, '_, '_, K>,
    before: &Whole<K>,
    stages: &mut Vec<Stage>,
) -> Result<(), AllocError>
    requires round { IsRound round.now }
    requires before { IsBeforeRound before.now round.now }
    requires stand { AllStandAt round.now before.now stages.old.items }
    ensures { IfOk result (λ _. AllStandAt round.now round.now.level.now stages.new.items) }
{
    for i in 0..round.tests.len() {
        let task = task_of(round, i, round.threads);
        look(rt, alloc, &task, before, &mut stages[i])?;
    }
    Ok(())
}

/// The predicates, compiled for the computation.
fn compile_all<'a, 'b>(
    alloc: Global,
    computation: &'a Computation<'b>,
    preds: &[&'a Pred],
) -> Result<Vec<Compiled<'a, 'b>>, AllocError>
    requires { 2 ≤ length computation.now.events }
    ensures { IfOk result (λ tests. AreCompiled computation.now preds.now tests.items) }
{
    let mut room = TABLE_BYTES;
    let mut tests = Vec::with_capacity(alloc, preds.len())?;
    for i in 0..preds.len() {
        tests.push(Compiled::compile(alloc, computation, preds[i], &mut room)?)?;
    }
    Ok(tests)
}

/// What is known of each predicate after level 0.
fn look_first<T: Threads + Sync, K: LevelKey + Send + Sync>(
    rt: &T,
    alloc: Global,
    round: &Round<'_, '_, '_, '_, K>,
) -> Result<Vec<Stage>, AllocError>
    requires round { IsRound round.now }
    requires number { round.now.level.now.number ≡ 0 }
    ensures { IfOk result (λ stages. AllStandAt round.now round.now.level.now stages.items) }
{
    let mut stages = Vec::with_capacity(alloc, round.tests.len())?;
    for i in 0..round.tests.len() {
        let task = task_of(round, i, 1);
        stages.push(stage_at(rt, alloc, &task)?)?;
    }
    Ok(stages)
}

/// Whether the walk up the whole levels is over: no predicate is open, and none is worth going on with at such a
/// wide level.
fn is_over<K: LevelKey>(stages: &[Stage], level: &Whole<K>, limit: u64) -> bool
    ensures { IsTrue result → (i : ℕ) (stage : Stage) → i < length stages.now
        → ¬ (slice_index_or stages.now i stage ≡ Open) }
{
    let wide = level.cuts() > limit;
    for stage in stages {
        match stage {
            Stage::Open => return false,
            Stage::Marked { split: _, marks: _ } => {
                if !wide {
                    return false;
                }
            }
            Stage::Answered(_) => {}
        }
    }
    true
}

/// Whether the walk goes on from this level: another one comes, and some predicate needs it.
fn goes_on<K: LevelKey>(stages: &[Stage], level: &Whole<K>, total: u64, limit: u64) -> bool
    ensures low { IsTrue result → level.now.number < total }
    ensures last { result ≡ false → (i : ℕ) (stage : Stage) → i < length stages.now
        → slice_index_or stages.now i stage ≡ Open → total ≤ level.now.number }
{
    if level.number() >= total {
        return false;
    }
    !is_over(stages, level, limit)
}

/// Holds the next whole level in place of the one that is held, once each predicate was looked at there. It stays a
/// call, so that the loop over the level's runs has the registers.
#[inline(never)]
fn step_up<T: Threads + Wait + Sync, G: Gate + Sync, K: LevelKey + Send + Sync>(
    setting: &Setting<'_, '_, '_, '_, T, G>,
    steps: &Steps<'_, '_>,
    tests: &[Compiled<'_, '_>],
    wholes: &mut Held<Whole<K>>,
    skipped: &mut SkippedRuns,
    stages: &mut Vec<Stage>,
) -> Result<(), AllocError>
    requires steps { steps.now ≡ setting.now.computation.now.events }
    requires tests { AreFor setting.now.computation.now tests.now }
    requires below { number_held wholes.old.levels.items < total setting.now.computation.now.events }
    requires come { HasComeTo setting.now.computation.now.events tests.now setting.now.width setting.now.gap
        wholes.old.most wholes.old.levels.items skipped.old stages.old.items }
    ensures come { IfOk result (λ _. HasComeTo setting.now.computation.now.events tests.now setting.now.width
        setting.now.gap wholes.new.most wholes.new.levels.items skipped.new stages.new.items) }
    ensures number { IfOk result (λ _. number_held wholes.new.levels.items
        ≡ number_held wholes.old.levels.items + 1) }
{
    let alloc = setting.alloc;
    let next = Whole::next(alloc, steps, wholes.last())?;
    wholes.push(next)?;
    let held: &Held<Whole<K>> = wholes;
    let before = held.last_but_one();
    let level = held.last();
    let crew = setting.crew;
    crew.reach(Reached {
        number: level.number(),
        last: setting.computation.total(),
        cuts: level.cuts(),
        is_whole: true,
    });
    let threads = crew.count() as usize;
    let rt = crew.runtime();
    let after = SkippedRuns::next(rt, threads, alloc, tests, before, skipped, level)?;
    let round = Round {
        computation: setting.computation,
        tests,
        width: setting.width,
        gap: setting.gap,
        level,
        skipped: &after,
        wholes: held,
        threads,
    };
    look_all(rt, alloc, &round, before, stages)?;
    *skipped = after;
    wholes.drop_last_but_one();
    Ok(())
}

/// The walk up the whole levels: what is known of each predicate after its last level, which stays. A level with more
/// cuts than `limit` ends it once no predicate is open.
pub(crate) fn walk_up<T: Threads + Wait + Sync, G: Gate + Sync, K: LevelKey + Send + Sync>(
    setting: &Setting<'_, '_, '_, '_, T, G>,
    preds: &[&Pred],
    limit: u64,
    wholes: &mut Held<Whole<K>>,
) -> Result<Vec<Stage>, AllocError>
    requires fits { K.fits (length setting.now.computation.now.events) }
    requires empty { wholes.old.levels.items ≡ [] }
    requires none { wholes.old.most ≡ 0 }
    ensures { IfOk result (λ stages. HasEnded setting.now.computation.now preds.now setting.now.width
        setting.now.gap wholes.new.most wholes.new.levels.items stages.items) }
{
    let alloc = setting.alloc;
    let computation = setting.computation;
    let total = computation.total();
    let steps = Steps::of(alloc, computation)?;
    let tests = compile_all(alloc, computation, preds)?;
    wholes.push(Whole::first(alloc, &steps)?)?;
    let held: &Held<Whole<K>> = wholes;
    let first = held.last();
    let mut skipped = SkippedRuns::first(alloc, &tests, first)?;
    let round = Round {
        computation,
        tests: &tests,
        width: setting.width,
        gap: setting.gap,
        level: first,
        skipped: &skipped,
        wholes: held,
        threads: setting.crew.count() as usize,
    };
    let mut stages = look_first(setting.crew.runtime(), alloc, &round)?;
    while goes_on(&stages, wholes.last(), total, limit) {
        step_up(setting, &steps, &tests, wholes, &mut skipped, &mut stages)?;
    }
    Ok(stages)
}
