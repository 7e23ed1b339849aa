//! Whether every observation passes through a satisfying cut, as far as it is decided whatever the width.
ghost use Rattle.wide.specs.Found.{FindsDefinitely};
ghost use Rattle.def_model.specs.Observations.{Possibly};
ghost use Rattle.def_model.specs.Predicates.{test_of};
ghost use Rattle.pd_pred.specs.Views.{predicate_view};
ghost use Rattle.std.specs.Prelude.{IfOk};

use pd_clock::Computation;
use pd_pred::Pred;
use std::alloc::{AllocError, Global};
use walk_back::DefinitelyAnswer;
use wide_pairs::{PassageOfTwo, definitely_of_two};
use wide_terms::{PassageByTerms, definitely_by_terms};

/// Whether every observation passes through a cut that satisfies the predicate, if some cut does: with the least level
/// that has no avoiding cut or with the path that is printed of an observation that avoids, whatever the width; or
/// nothing, if the predicate names more than two processes and isn't one of which its terms decide this. No level is
/// walked.
///
/// Source: Garg and Waldecker, Detection of Strong Unstable Predicates in Distributed Programs, 1996.
///
/// # Errors
/// An allocation was refused.
pub(crate) fn definitely_decided(
    alloc: Global,
    computation: &Computation<'_>,
    pred: &Pred,
) -> Result<Option<DefinitelyAnswer>, AllocError>
    requires { Possibly computation.now.events (test_of computation.now (predicate_view pred.now)) }
    ensures { IfOk result (FindsDefinitely computation.now (predicate_view pred.now)) }
{
    let by_terms = definitely_by_terms(alloc, computation, pred)?;
    match by_terms {
        PassageByTerms::Passed(level) => return Ok(Some(DefinitelyAnswer::Yes(level))),
        PassageByTerms::Avoided(path) => return Ok(Some(DefinitelyAnswer::No(path))),
        PassageByTerms::Undecided => {}
    }
    let of_two = definitely_of_two(alloc, computation, pred)?;
    match of_two {
        PassageOfTwo::Passed(level) => Ok(Some(DefinitelyAnswer::Yes(level))),
        PassageOfTwo::Avoided(path) => Ok(Some(DefinitelyAnswer::No(path))),
        PassageOfTwo::Undecided => Ok(None),
    }
}
