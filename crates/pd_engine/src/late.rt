//! What is answered where the walk leaves it unknown.
ghost use Rattle.def_judgement.specs.Judgements.{AnswersDefinitely, AnswersPossibly};
ghost use Rattle.def_wide.specs.Sums.{IsDecidedBySums};
ghost use Rattle.pd_engine.specs.Early.{IsByHeightBeyond, IsEarlyLate, IsLowestCut, IsTaken, IsTakenDefinitely, IsTriedCut};
ghost use Rattle.pd_pred.specs.Views.{predicate_view};
ghost use Rattle.pd_spec.specs.Views.{document_view};
ghost use Rattle.walk_back.specs.Answers.{definitely_answer_view, possibly_answer_view};
ghost use Rattle.std.specs.Prelude.{◌≡◌, ◌↔◌, IfOk, IsTrue, false, true, unwrap_or};

use pd_clock::{Computation, Cut};
use pd_pred::Pred;
use pd_spec::Spec;
use std::alloc::{AllocError, Global};
use walk_back::{DefinitelyAnswer, PossiblyAnswer};
use wide_gates::first_tried;
use wide_sums::first_by_sums;

/// A satisfying cut in place of an answer that is left unknown: the first by height, if sums decide the predicate, and
/// else the first tried one.
///
/// # Errors
/// An allocation was refused.
fn cut_beyond(
    alloc: Global,
    computation: &Computation<'_>,
    pred: &Pred,
    by_height: bool,
) -> Result<Option<Cut>, AllocError>
    requires { by_height ≡ true → IsDecidedBySums computation.now (predicate_view pred.now) }
    ensures by_height { by_height ≡ true → IfOk result (IsLowestCut computation.now (predicate_view pred.now)) }
    ensures tried { by_height ≡ false → IfOk result (IsTriedCut computation.now (predicate_view pred.now)) }
{
    if by_height {
        return first_by_sums(alloc, computation, pred.tree());
    }
    first_tried(alloc, computation, pred)
}

/// The answer in place of one that the walk left unknown, if the document asks for that: yes, with the first satisfying
/// cut by height, if sums decide the predicate, and else with the first tried cut that satisfies, if one does.
///
/// # Errors
/// An allocation was refused.
pub(crate) fn late_possibly(
    alloc: Global,
    spec: &Spec,
    computation: &Computation<'_>,
    pred: &Pred,
    by_height: bool,
    taken: &PossiblyAnswer,
) -> Result<Option<PossiblyAnswer>, AllocError>
    requires by_height { IsTrue by_height
        ↔ IsByHeightBeyond (document_view spec.now) computation.now (predicate_view pred.now) }
    requires taken { IsTaken (document_view spec.now) computation.now (predicate_view pred.now) taken.now }
    ensures { IfOk result (λ late. AnswersPossibly (document_view spec.now) computation.now (predicate_view pred.now)
        (possibly_answer_view (unwrap_or late taken.now))) }
{
    let is_asked = spec.beyond_width();
    if !is_asked {
        return Ok(None);
    }
    match taken {
        PossiblyAnswer::Unknown(_) => {
            let found = cut_beyond(alloc, computation, pred, by_height)?;
            match found {
                Some(cut) => Ok(Some(PossiblyAnswer::Yes(cut))),
                None => Ok(None),
            }
        }
        PossiblyAnswer::Yes(_) | PossiblyAnswer::No => Ok(None),
    }
}

/// The answer for Definitely in place of one that the walk left unknown: yes with the level that was found before, if
/// there is one and the document asks for that. The computation and the predicate are there for the contract alone.
pub(crate) fn late_definitely(
    spec: &Spec,
    _computation: &Computation<'_>,
    _pred: &Pred,
    late: Option<u64>,
    taken: &DefinitelyAnswer,
) -> Option<DefinitelyAnswer>
    requires late { IsEarlyLate (document_view spec.now) _computation.now (predicate_view _pred.now) late }
    requires taken { IsTakenDefinitely (document_view spec.now) _computation.now (predicate_view _pred.now)
        taken.now }
    ensures { AnswersDefinitely (document_view spec.now) _computation.now (predicate_view _pred.now)
        (definitely_answer_view (unwrap_or result taken.now)) }
{
    if !spec.beyond_width() {
        return None;
    }
    match taken {
        DefinitelyAnswer::Unknown(_) => match late {
            Some(level) => Some(DefinitelyAnswer::Yes(level)),
            None => None,
        },
        DefinitelyAnswer::Yes(_) | DefinitelyAnswer::No(_) => None,
    }
}

/// The later answer, if there is one.
pub(crate) fn latest<'a, T>(late: &'a Option<T>, taken: &'a T) -> &'a T
    ensures { result.now ≡ unwrap_or late.now taken.now }
{
    match late {
        Some(answer) => answer,
        None => taken,
    }
}
