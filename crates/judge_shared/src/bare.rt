//! Answers without their evidence.
ghost use Rattle.judge_shared.specs.Sharing.{AreCopies, answers_view, bare, bare_definitely, bare_possibly, is_definitely_known, is_known, is_possibly_known};
ghost use Rattle.pd_report.specs.Views.{answer_view, definitely_view, possibly_view};
ghost use Rattle.std.specs.List.{list_all};
ghost use Rattle.std.specs.Prelude.{◌≡◌, IfOk, map};

use pd_report::{Answer, Definitely, Path, Possibly};
use std::alloc::{AllocError, Global};

/// The answer without the cut.
fn bare_possibly(alloc: Global, possibly: &Possibly) -> Possibly
    ensures { possibly_view result ≡ bare_possibly (possibly_view possibly.now) }
{
    match possibly {
        Possibly::Yes(_) => Possibly::Yes(Vec::new(alloc)),
        Possibly::No => Possibly::No,
        Possibly::Unknown(level) => Possibly::Unknown(*level),
    }
}

/// The answer without the level of a yes, or the observation.
fn bare_definitely(alloc: Global, definitely: &Definitely) -> Definitely
    ensures { definitely_view result ≡ bare_definitely (definitely_view definitely.now) }
{
    match definitely {
        Definitely::Yes(_) => Definitely::Yes(0),
        Definitely::No(_) => Definitely::No(Path::new(Vec::new(alloc), Vec::new(alloc))),
        Definitely::Unknown(level) => Definitely::Unknown(*level),
    }
}

/// A copy of the answer without its evidence.
///
/// # Errors
/// An allocation was refused.
fn bare(alloc: Global, answer: &Answer) -> Result<Answer, AllocError>
    ensures { IfOk result (λ copy. answer_view copy ≡ bare (answer_view answer.now)) }
{
    Ok(Answer {
        name: answer.name.clone()?,
        possibly: bare_possibly(alloc, &answer.possibly),
        definitely: bare_definitely(alloc, &answer.definitely),
    })
}

/// Copies of the answers without their evidence.
///
/// # Errors
/// An allocation was refused.
pub(crate) fn bare_answers(alloc: Global, answers: &[Answer]) -> Result<Vec<Answer>, AllocError>
    ensures { IfOk result (λ copies. answers_view copies.items
        ≡ map (λ answer. bare (answer_view answer)) answers.now) }
{
    let mut copies = Vec::new(alloc);
    for answer in answers {
        copies.push(bare(alloc, answer)?)?;
    }
    Ok(copies)
}

/// Whether some cut is known to satisfy, or none.
fn is_possibly_known(possibly: &Possibly) -> bool
    ensures { result ≡ is_possibly_known (possibly_view possibly.now) }
{
    match possibly {
        Possibly::Yes(_) | Possibly::No => true,
        Possibly::Unknown(_) => false,
    }
}

/// Whether it is known if each observation has such a cut.
fn is_definitely_known(definitely: &Definitely) -> bool
    ensures { result ≡ is_definitely_known (definitely_view definitely.now) }
{
    match definitely {
        Definitely::Yes(_) | Definitely::No(_) => true,
        Definitely::Unknown(_) => false,
    }
}

/// Whether both questions have an answer.
fn is_known(answer: &Answer) -> bool
    ensures { result ≡ is_known (answer_view answer.now) }
{
    is_possibly_known(&answer.possibly) && is_definitely_known(&answer.definitely)
}

/// Whether no answer is unknown.
fn are_known(answers: &[Answer]) -> bool
    ensures { result ≡ list_all (λ answer. is_known (answer_view answer)) answers.now }
{
    answers.iter().all(|answer| is_known(answer))
}

/// Copies of the answers without their evidence, if none is unknown.
///
/// # Errors
/// An allocation was refused.
pub(crate) fn known_answers(
    alloc: Global,
    answers: &[Answer],
) -> Result<Option<Vec<Answer>>, AllocError>
    ensures { IfOk result (λ kept. AreCopies kept (answers_view answers.now)) }
{
    if are_known(answers) {
        return Ok(Some(bare_answers(alloc, answers)?));
    }
    Ok(None)
}
