//! Both answers for one predicate by lists of cuts, which serve any computation.
ghost use Rattle.walk_back.specs.Answers.{AreAnswers};
ghost use Rattle.def_model.specs.Cuts.{total};
ghost use Rattle.def_model.specs.Predicates.{test_of};
ghost use Rattle.pd_pred.specs.Views.{predicate_view};
ghost use Rattle.std.specs.Prelude.{◌+◌, ◌*◌, ◌<◌, ◌≤◌, IfOk};

use super::answers::Answers;
use super::avoiding::first_avoiding;
use super::by_lists::possibly_by_lists;
use super::holder::Holder;
use super::listed::{settle_listed, walk_listed};
use super::question::Question;
use super::split::Split;
use pd_clock::Computation;
use pd_expand::Crew;
use pd_level::Gate;
use pd_pred::Pred;
use std::alloc::{AllocError, Global};
use std::sync::Wait;
use std::thread::Threads;

/// Both answers for one predicate, under a width from 1 on. From one level that is kept to the next are `gap` levels,
/// and the square of that number is above the number of events.
///
/// # Errors
/// An allocation was refused, or there might be more cuts than a `u64` counts.
pub fn answers_by_lists<T: Threads + Wait + Sync, G: Gate + Sync>(
    crew: &Crew<'_, '_, T, G>,
    alloc: Global,
    computation: &Computation<'_>,
    pred: &Pred,
    width: u64,
    gap: u64,
) -> Result<Answers, AllocError>
    requires wide { 1 ≤ width }
    requires root { total computation.now.events < gap * gap }
    ensures { IfOk result (AreAnswers computation.now.events (test_of computation.now (predicate_view pred.now)) width
        (2 * gap + 2)) }
{
    let mut held = Holder::new(alloc);
    let possibly = possibly_by_lists(crew, alloc, computation, pred, width, &mut held)?;
    held.walk(first_avoiding(alloc, computation, pred)?)?;
    let split = Split {
        possibly,
        first: 0,
        held,
    };
    let question = Question {
        crew,
        alloc,
        computation,
        pred,
        width,
        gap,
    };
    match settle_listed(&question, split)? {
        Ok(on) => walk_listed(&question, None, on),
        Err(answers) => Ok(answers),
    }
}
