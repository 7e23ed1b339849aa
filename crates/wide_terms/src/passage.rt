//! Whether every observation passes through a satisfying cut, by terms.
ghost use Rattle.def_model.specs.Observations.{Possibly};
ghost use Rattle.def_model.specs.Predicates.{Predicate, Recorded, test_of};
ghost use Rattle.pd_pred.specs.Views.{predicate_view};
ghost use Rattle.def_model.specs.Decided.{HasFewTerms, IsDecidedByTerms, term_count};
ghost use Rattle.wide_terms.specs.Passages.{IsPassageOf, IsRightPassage};
ghost use Rattle.std.specs.Prelude.{◌≡◌, IfOk, false};

use super::clause::{ByClause, definitely_by_clause};
use super::conjunction::passage_of_one;
use super::few::TERM_LIMIT;
use super::local::is_local;
use super::term_count::count;
use pd_clock::Computation;
use pd_pred::Pred;
use std::alloc::{AllocError, Global};
use wide_conjunctions::Passage;

/// Whether every observation passes through a satisfying cut, as far as the terms of a predicate decide it.
#[derive(Drop)]
pub enum PassageByTerms {
    /// Each one does. The level of this many events is the least that has no avoiding cut.
    Passed(u64),
    /// The one with this path doesn't. The path has the processes, counted from 0, in the order in which their events
    /// happen.
    Avoided(Vec<usize>),
    /// A comparison speaks of several processes, there are more terms than may be, or some cut satisfies one of several
    /// terms that aren't single comparisons.
    Undecided,
}

/// The answer where terms decide.
fn decided(passage: Passage) -> PassageByTerms
    ensures { (r : Recorded) (predicate : Predicate) → IsDecidedByTerms r predicate
        → IsPassageOf r.events (test_of r predicate) passage → IsRightPassage r predicate result }
{
    match passage {
        Passage::Passed(level) => PassageByTerms::Passed(level),
        Passage::Avoided(path) => PassageByTerms::Avoided(path),
    }
}

/// The answer of a predicate that has few terms, but several, if some consistent cut satisfies: by a clause, if it is
/// one.
fn passage_of_several(
    alloc: Global,
    computation: &Computation<'_>,
    pred: &Pred,
) -> Result<PassageByTerms, AllocError>
    requires few { HasFewTerms (predicate_view pred.now) }
    requires several { ¬ (term_count false (predicate_view pred.now) ≡ 1) }
    requires satisfied { Possibly computation.now.events (test_of computation.now (predicate_view pred.now)) }
    ensures { IfOk result (IsRightPassage computation.now (predicate_view pred.now)) }
{
    let by_clause = definitely_by_clause(alloc, computation, pred)?;
    match by_clause {
        ByClause::Passed(level) => Ok(PassageByTerms::Passed(level)),
        // the first of both would say that no cut satisfies
        ByClause::Unsatisfied | ByClause::Undecided => Ok(PassageByTerms::Undecided),
    }
}

/// Whether every observation passes through a cut that satisfies a predicate that some consistent cut satisfies,
/// whatever the width, if each of its comparisons speaks of one process at most and it has no more than `TERM_LIMIT`
/// terms: with the least level that has no avoiding cut, or with the path that is printed of an observation that passes
/// through none. It is decided if there is one term, or if the predicate is an `or` of comparisons. No level is walked.
/// Where no consistent cut satisfies, `path_of_all` gives the path.
///
/// Source: Garg and Waldecker, Detection of Strong Unstable Predicates in Distributed Programs, 1996.
///
/// # Errors
/// An allocation was refused.
pub fn definitely_by_terms(
    alloc: Global,
    computation: &Computation<'_>,
    pred: &Pred,
) -> Result<PassageByTerms, AllocError>
    requires { Possibly computation.now.events (test_of computation.now (predicate_view pred.now)) }
    ensures { IfOk result (IsRightPassage computation.now (predicate_view pred.now)) }
{
    let tree = pred.tree();
    let many = count(tree, false);
    if !is_local(tree) || many > TERM_LIMIT {
        return Ok(PassageByTerms::Undecided);
    }
    if many > 1 {
        return passage_of_several(alloc, computation, pred);
    }
    let passage = passage_of_one(alloc, computation, pred)?;
    Ok(decided(passage))
}
