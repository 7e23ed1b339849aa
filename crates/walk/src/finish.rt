//! The answers after the last whole level.
ghost use Rattle.walk_back.specs.Answers.{AreAnswers};
ghost use Rattle.def_model.specs.Cuts.{total};
ghost use Rattle.def_model.specs.Predicates.{test_of};
ghost use Rattle.pd_pred.specs.Views.{predicate_view};
ghost use Rattle.walk_runs.specs.Levels.{IsWholeLevel};
ghost use Rattle.walk.specs.Stages.{AllAnswered, AreBeside, HasEnded, IsOpenBelow, Stands, counted};
ghost use Rattle.walk.specs.declared.stage.Stage.TheVariants.{Open};
ghost use Rattle.std.specs.Prelude.{◌≡◌, ◌+◌, ◌*◌, ◌≤◌, IfOk, length};

use super::setting::Setting;
use super::stage::Stage;
use super::walk::TABLE_BYTES;
use pd_level::{Gate, LevelKey};
use pd_pred::Pred;
use std::alloc::AllocError;
use std::mem;
use std::sync::Wait;
use std::thread::Threads;
use walk_back::{
    Answers, DefinitelyAnswer, Held, Holder, PossiblyAnswer, Question, Split, walk_listed, way_back,
};
use walk_runs::Whole;
use walk_tables::Compiled;

/// The answers for all predicates after the last whole level.
pub(crate) fn finish_all<T: Threads + Wait + Sync, G: Gate + Sync, K: LevelKey + Send + Sync>(
    setting: &Setting<'_, '_, '_, '_, T, G>,
    preds: &[&Pred],
    wholes: &Held<Whole<K>>,
    stages: &mut Vec<Stage>,
) -> Result<Vec<Answers>, AllocError>
    requires ended { HasEnded setting.now.computation.now preds.now setting.now.width setting.now.gap
        wholes.now.most wholes.now.levels.items stages.old.items }
    ensures { IfOk result (λ answers. AllAnswered setting.now.computation.now preds.now setting.now.width
        (2 * setting.now.gap + 2) answers.items) }
{
    let mut answers = Vec::with_capacity(setting.alloc, preds.len())?;
    for i in 0..preds.len() {
        let stage = mem::replace(&mut stages[i], Stage::Open);
        answers.push(finish(setting, preds[i], wholes.last(), wholes, stage)?)?;
    }
    Ok(answers)
}

/// Both answers for a predicate of which this is known after a level, the only whole one that is held. If no cut so far
/// satisfies, it is the last level.
fn finish<T: Threads + Wait + Sync, G: Gate + Sync, K: LevelKey + Send + Sync>(
    setting: &Setting<'_, '_, '_, '_, T, G>,
    pred: &Pred,
    level: &Whole<K>,
    wholes: &Held<Whole<K>>,
    stage: Stage,
) -> Result<Answers, AllocError>
    requires level { IsWholeLevel setting.now.computation.now.events level.now }
    requires within { level.now.number ≤ total setting.now.computation.now.events }
    requires last { stage ≡ Open → level.now.number ≡ total setting.now.computation.now.events }
    requires stands { Stands setting.now.computation.now.events
        (test_of setting.now.computation.now (predicate_view pred.now)) setting.now.width setting.now.gap level.now
        stage }
    requires one { length wholes.now.levels.items ≡ 1 }
    requires most { AreBeside level.now.number wholes.now.most }
    ensures right { IfOk result (AreAnswers setting.now.computation.now.events
        (test_of setting.now.computation.now (predicate_view pred.now)) setting.now.width
        (2 * setting.now.gap + 2)) }
    ensures no_fewer { IfOk result (λ answers. counted stage ≤ answers.held.most) }
{
    let computation = setting.computation;
    computation.limits();
    match stage {
        Stage::Open => answer_none(setting, pred, wholes),
        Stage::Marked { split, marks } => {
            let mut room = TABLE_BYTES;
            let test = Compiled::compile(setting.alloc, computation, pred, &mut room)?;
            let mut split = split;
            split.held.stand_on(wholes)?;
            let listed = marks.to_level(setting.alloc, level)?;
            split.held.walk(listed)?;
            let question = Question {
                crew: setting.crew,
                alloc: setting.alloc,
                computation,
                pred,
                width: setting.width,
                gap: setting.gap,
            };
            walk_listed(&question, Some(&test), split)
        }
        Stage::Answered(answers) => Ok(answers),
    }
}

/// Both answers, if no cut satisfies. One whole level is held.
fn answer_none<T: Threads + Wait + Sync, G: Gate + Sync, K: LevelKey + Send + Sync>(
    setting: &Setting<'_, '_, '_, '_, T, G>,
    pred: &Pred,
    wholes: &Held<Whole<K>>,
) -> Result<Answers, AllocError>
    requires one { length wholes.now.levels.items ≡ 1 }
    requires most { AreBeside (total setting.now.computation.now.events) wholes.now.most }
    requires opened { IsOpenBelow setting.now.computation.now.events
        (test_of setting.now.computation.now (predicate_view pred.now)) setting.now.width
        (total setting.now.computation.now.events + 1) }
    ensures { IfOk result (AreAnswers setting.now.computation.now.events
        (test_of setting.now.computation.now (predicate_view pred.now)) setting.now.width
        (2 * setting.now.gap + 2)) }
{
    // the laws that the proof uses
    def_model::levels();
    def_model::avoiding_levels();
    def_model::possibly_walk();
    def_model::definitely_walk();
    def_model::avoidance();
    let computation = setting.computation;
    computation.limits();
    let mut split = Split {
        possibly: PossiblyAnswer::No,
        first: computation.total() + 1,
        held: Holder::new(setting.alloc),
    };
    split.held.stand_on(wholes)?;
    let path = way_back(
        setting.crew,
        setting.alloc,
        computation,
        pred,
        split.first,
        setting.gap,
        &mut split.held,
    )?;
    Ok(split.answered(DefinitelyAnswer::No(path)))
}
