//! What a predicate comes to.
ghost use Rattle.def_model.specs.Decided.{term_count, term_limit};
ghost use Rattle.def_wide.specs.Sums.{NamesNoOther};
ghost use Rattle.def_wide.specs.Terms.{Literal as ModelLiteral};
ghost use Rattle.pd_pred.specs.Trees.{tree_view};
ghost use Rattle.wide_sums.specs.Literals.{literal_view, terms_at};
ghost use Rattle.wide_sums.specs.Places.{IsPrepared};
ghost use Rattle.wide_sums.specs.Splits.{AreSums};
ghost use Rattle.wide_sums.specs.TermVerdicts.{AreNamedBelow, IsVerdict, IsVerdictOf};
ghost use Rattle.wide_terms.specs.Rows.{numbers_view};
ghost use Rattle.std.specs.Prelude.{◌≡◌, ◌<◌, ◌≤◌, [], IfOk, List, false, length, map, slice_index_or};

use super::prepared::Prepared;
use super::term::verdict_in_slice;
use super::there::names_no_other;
use super::verdict::Verdict;
use pd_clock::Computation;
use pd_pred::Tree;
use std::alloc::{AllocError, Global};
use wide_slice::slice_of;
use wide_terms::{TERM_LIMIT, count};

/// What the term with this number, from 0, comes to.
///
/// # Errors
/// An allocation was refused.
fn verdict_of_term(
    alloc: Global,
    computation: &Computation<'_>,
    prepared: &Prepared<'_>,
    i: usize,
) -> Result<Verdict, AllocError>
    requires there { i < length prepared.now.terms.terms.items }
    requires prepared { IsPrepared computation.now prepared.now.rows.rows.items
        (map literal_view prepared.now.terms.literals.items) prepared.now.places.items }
    requires names { (sums : List ModelLiteral)
        → AreSums (slice_index_or (terms_at prepared.now.terms.literals.items
        (numbers_view prepared.now.terms.terms.items)) i []) sums
        → AreNamedBelow (length computation.now.events) sums }
    ensures { IfOk result (IsVerdictOf computation.now (slice_index_or (terms_at prepared.now.terms.literals.items
        (numbers_view prepared.now.terms.terms.items)) i [])) }
{
    let split = prepared.split(alloc, computation, i)?;
    let good = prepared.good(&split);
    let found = slice_of(alloc, computation, &good)?;
    match found {
        Some(slice) => {
            let single = prepared.is_single(i);
            verdict_in_slice(alloc, computation, &good, &slice, &split.sums, single)
        }
        None => Ok(Verdict::Unsatisfied),
    }
}

/// What a predicate comes to whose terms are few, and that names no process that isn't there.
fn verdict_of_terms(
    alloc: Global,
    computation: &Computation<'_>,
    tree: &Tree,
) -> Result<Verdict, AllocError>
    requires few { term_count false (tree_view tree.now) ≤ term_limit }
    requires there { NamesNoOther (length computation.now.events) (tree_view tree.now) }
    ensures { IfOk result (IsVerdict computation.now (tree_view tree.now)) }
{
    let prepared = Prepared::of(alloc, computation, tree)?;
    let mut satisfied = false;
    for i in 0..prepared.len() {
        let verdict = verdict_of_term(alloc, computation, &prepared, i)?;
        match verdict {
            Verdict::Undecided => return Ok(Verdict::Undecided),
            Verdict::Unsatisfied => {}
            Verdict::Satisfied => satisfied = true,
        }
    }
    if satisfied {
        return Ok(Verdict::Satisfied);
    }
    Ok(Verdict::Unsatisfied)
}

/// Whether some consistent cut satisfies the predicate, as far as sums decide it: each of its terms, of which there are
/// no more than `TERM_LIMIT`, has no cut, compares one process alone in each comparison, or has one comparison of
/// several processes that is decided over the cuts at which the others hold. No level is walked.
///
/// Each sum of a term takes up to two passes over the events.
///
/// Source: Groselj, Bounded and Minimum Global Snapshots, 1993; Chase and Garg, Detection of Global Predicates:
/// Techniques and their Limitations, 1998.
///
/// # Errors
/// An allocation was refused.
pub fn verdict_by_sums(
    alloc: Global,
    computation: &Computation<'_>,
    tree: &Tree,
) -> Result<Verdict, AllocError>
    ensures { IfOk result (IsVerdict computation.now (tree_view tree.now)) }
{
    if count(tree, false) > TERM_LIMIT || !names_no_other(computation.processes(), tree) {
        return Ok(Verdict::Undecided);
    }
    verdict_of_terms(alloc, computation, tree)
}
