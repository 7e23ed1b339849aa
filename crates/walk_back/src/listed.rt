//! The walk up the levels of the avoiding cuts alone, if the whole levels are too wide.
ghost use Rattle.walk_back.specs.Listed.{IsAt};
ghost use Rattle.walk_back.specs.Questions.{AreAnswersTo, IsCompiledFor, IsSplitTo, question_events, question_test};
ghost use Rattle.walk_back.specs.Counts.{others};
ghost use Rattle.walk_back.specs.Ways.{last_number};
ghost use Rattle.walk_back.specs.Splits.{AreHeld, AreKeptBelow};
ghost use Rattle.def_model.specs.Cuts.{total};
ghost use Rattle.std.specs.Prelude.{◌≡◌, ◌+◌, ◌<◌, ◌≤◌, IfErr, IfOk, length};

use super::answers::Answers;
use super::back::way_back;
use super::by_tables::next_listed;
use super::definitely_answer::DefinitelyAnswer;
use super::ends::end_at;
use super::question::Question;
use super::split::{Split, is_due};
use pd_level::Gate;
use std::alloc::AllocError;
use std::sync::Wait;
use std::thread::Threads;
use walk_tables::Compiled;

/// Both answers, from the avoiding cuts of the level on that is walked. The count is no less than what the split's
/// holder has come to.
///
/// # Errors
/// An allocation was refused, or there might be more cuts than a `u64` counts.
pub fn walk_listed<T: Threads + Wait + Sync, G: Gate + Sync>(
    question: &Question<'_, '_, '_, '_, '_, T, G>,
    compiled: Option<&Compiled<'_, '_>>,
    split: Split,
) -> Result<Answers, AllocError>
    requires compiled { IsCompiledFor question.now compiled }
    requires at { IsAt (question_events question.now) (question_test question.now)
        (last_number split.held.walked.items) split.held.walked.items }
    requires within { last_number split.held.walked.items ≤ total (question_events question.now) }
    requires split { IsSplitTo question.now (last_number split.held.walked.items + 1) split }
    requires held { AreHeld (last_number split.held.walked.items) split.held.most }
    ensures right { IfOk result (AreAnswersTo question.now) }
    ensures no_fewer { IfOk result (λ answers. split.held.most ≤ answers.held.most) }
{
    // the laws that the proof uses
    def_model::levels();
    def_model::avoiding_levels();
    def_model::definitely_walk();
    let total = question.computation.total();
    let mut split = split;
    let mut k = split.held.at().number();
    while k < total {
        let up = go_up(question, compiled, k, split)?;
        k += 1;
        let settled = settle_listed(question, up)?;
        match settled {
            Ok(on) => split = on,
            Err(answers) => return Ok(answers),
        }
    }
    answer_no(question, split)
}

/// Walks on from the avoiding cuts of level `k` to those of the next one.
fn go_up<T: Threads + Wait + Sync, G: Gate + Sync>(
    question: &Question<'_, '_, '_, '_, '_, T, G>,
    compiled: Option<&Compiled<'_, '_>>,
    k: u64,
    split: Split,
) -> Result<Split, AllocError>
    requires compiled { IsCompiledFor question.now compiled }
    requires low { k < 18446744073709551615 }
    requires within { k ≤ total (question_events question.now) }
    requires at { IsAt (question_events question.now) (question_test question.now) k split.held.walked.items }
    requires split { IsSplitTo question.now (k + 1) split }
    ensures at { IfOk result (λ after. IsAt (question_events question.now) (question_test question.now) (k + 1)
        after.held.walked.items) }
    ensures split { IfOk result (IsSplitTo question.now (k + 1)) }
    ensures two { IfOk result (λ after. 2 ≤ after.held.most) }
    ensures no_fewer { IfOk result (λ after. split.held.most ≤ after.held.most) }
{
    let mut split = split;
    let next = next_listed(question, compiled, split.held.at())?;
    split.held.walk(next)?;
    split.held.leave();
    Ok(split)
}

/// What the avoiding cuts that are walked decide: the answers, or how the walk goes on.
pub(crate) fn settle_listed<T: Threads + Wait + Sync, G: Gate + Sync>(
    question: &Question<'_, '_, '_, '_, '_, T, G>,
    split: Split,
) -> Result<Result<Split, Answers>, AllocError>
    requires at { IsAt (question_events question.now) (question_test question.now)
        (last_number split.held.walked.items) split.held.walked.items }
    requires within { last_number split.held.walked.items ≤ total (question_events question.now) }
    requires split { IsSplitTo question.now (last_number split.held.walked.items) split }
    requires held { AreHeld (last_number split.held.walked.items) split.held.most }
    ensures on { IfOk result (λ settled. IfOk settled
        (IsSplitTo question.now (last_number split.held.walked.items + 1))) }
    ensures walked { IfOk result (λ settled. IfOk settled (λ on. on.held.walked.items ≡ split.held.walked.items)) }
    ensures held { IfOk result (λ settled. IfOk settled (λ on. split.held.most ≤ on.held.most)) }
    ensures answered { IfOk result (λ settled. IfErr settled (AreAnswersTo question.now)) }
    ensures counted { IfOk result (λ settled. IfErr settled (λ answers. answers.held.most ≡ split.held.most)) }
{
    // the laws that the proof uses
    def_model::definitely_walk();
    let level = split.held.at();
    match end_at(level.len() as u64, level.number(), question.width) {
        Some(definitely) => Ok(Err(split.answered(definitely))),
        None => Ok(Ok(keep_listed(question, split)?)),
    }
}

/// Keeps the avoiding cuts that are walked if their level is the first one or comes a gap after the one kept last.
fn keep_listed<T: Threads + Wait + Sync, G: Gate + Sync>(
    question: &Question<'_, '_, '_, '_, '_, T, G>,
    split: Split,
) -> Result<Split, AllocError>
    requires at { IsAt (question_events question.now) (question_test question.now)
        (last_number split.held.walked.items) split.held.walked.items }
    requires within { last_number split.held.walked.items ≤ total (question_events question.now) }
    requires kept { AreKeptBelow (question_events question.now) (question_test question.now) split.first
        question.now.gap (last_number split.held.walked.items) split.held.levels.items }
    requires few { split.held.most ≤ question.now.gap + 3 }
    requires beside { others split.held ≤ 2 }
    ensures kept { IfOk result (λ after. AreKeptBelow (question_events question.now) (question_test question.now)
        after.first question.now.gap (last_number split.held.walked.items + 1) after.held.levels.items) }
    ensures walked { IfOk result (λ after. after.held.walked.items ≡ split.held.walked.items) }
    ensures beside { IfOk result (λ after. after.held.beside ≡ split.held.beside) }
    ensures few { IfOk result (λ after. after.held.most ≤ question.now.gap + 3) }
    ensures no_fewer { IfOk result (λ after. split.held.most ≤ after.held.most) }
    ensures first { IfOk result (λ after. after.first ≡ split.first) }
    ensures possibly { IfOk result (λ after. after.possibly ≡ split.possibly) }
{
    let mut split = split;
    let level = split.held.at();
    if !is_due(&split, level.number(), question.gap) {
        return Ok(split);
    }
    let copy = level.copy(question.alloc)?;
    split.held.push(copy)?;
    Ok(split)
}

/// Both answers, if the full cut avoids.
fn answer_no<T: Threads + Wait + Sync, G: Gate + Sync>(
    question: &Question<'_, '_, '_, '_, '_, T, G>,
    split: Split,
) -> Result<Answers, AllocError>
    requires split { IsSplitTo question.now (total (question_events question.now) + 1) split }
    requires held { AreHeld (total (question_events question.now)) split.held.most }
    requires one { 1 ≤ length split.held.walked.items }
    ensures right { IfOk result (AreAnswersTo question.now) }
    ensures no_fewer { IfOk result (λ answers. split.held.most ≤ answers.held.most) }
{
    // the laws that the proof uses
    def_model::levels();
    def_model::avoiding_levels();
    def_model::definitely_walk();
    let mut split = split;
    split.held.end_walk();
    let path = way_back(
        question.crew,
        question.alloc,
        question.computation,
        question.pred,
        split.first,
        question.gap,
        &mut split.held,
    )?;
    Ok(split.answered(DefinitelyAnswer::No(path)))
}
