//! The first satisfying cut by height, by sums.
ghost use Rattle.def_model.specs.Observations.{Possibly};
ghost use Rattle.def_model.specs.Predicates.{test_of};
ghost use Rattle.def_wide.specs.Heights.{IsFirstByHeight};
ghost use Rattle.def_wide.specs.Sums.{IsDecidedBySums, IsDecidedTerm};
ghost use Rattle.def_wide.specs.Terms.{Literal as ModelLiteral};
ghost use Rattle.pd_pred.specs.Trees.{tree_view};
ghost use Rattle.wide_slice.specs.Slices.{IsSlice};
ghost use Rattle.wide_sums.specs.FirstCuts.{IsLowestIfAny, Satisfies};
ghost use Rattle.wide_sums.specs.Literals.{literal_view, terms_at};
ghost use Rattle.wide_sums.specs.Places.{IsPrepared};
ghost use Rattle.wide_sums.specs.Splits.{AreSums};
ghost use Rattle.wide_sums.specs.TermVerdicts.{AreNamedBelow, IsSliceFor};
ghost use Rattle.wide_terms.specs.Rows.{numbers_view};
ghost use Rattle.std.specs.Prelude.{◌<◌, [], IfOk, List, MatchOption, length, map, slice_index_or};

use super::excess::Setting;
use super::literal::Literal;
use super::lower::lower_of;
use super::lowest::lowest_of_one;
use super::prepared::Prepared;
use pd_clock::{Computation, Cut};
use pd_pred::Tree;
use std::alloc::{AllocError, Global};
use wide_conjunctions::GoodCounts;
use wide_slice::{Slice, slice_of};

/// The lowest consistent cut that satisfies a decided term with these sums.
///
/// # Errors
/// An allocation was refused.
fn lowest_in_slice<G: GoodCounts>(
    alloc: Global,
    computation: &Computation<'_>,
    wanted: &G,
    slice: &Slice,
    sums: &[Literal<'_>],
) -> Result<Option<Cut>, AllocError>
    requires slice { IsSlice computation.now.events (G.good wanted.now) slice.now }
    requires names { AreNamedBelow (length computation.now.events) (map literal_view sums.now) }
    ensures { IfOk result (λ found. (term : List ModelLiteral) → AreSums term (map literal_view sums.now)
        → IsSliceFor computation.now term (G.good wanted.now) → IsDecidedTerm computation.now term
        → IsLowestIfAny (Satisfies computation.now term) found) }
{
    // no event happened before itself
    computation.limits();
    let at = Setting {
        computation,
        wanted,
        slice,
    };
    if sums.len() == 0 {
        let cut = Cut::new(alloc, slice.least())?;
        return Ok(Some(cut));
    }
    if sums.len() == 1 {
        return lowest_of_one(alloc, &at, &sums[0]);
    }
    // a term with several sums is decided only if no cut satisfies it
    Ok(None)
}

/// The lowest consistent cut that satisfies the term with this number, from 0, if the term is decided.
///
/// # Errors
/// An allocation was refused.
fn lowest_of_term(
    alloc: Global,
    computation: &Computation<'_>,
    prepared: &Prepared<'_>,
    i: usize,
) -> Result<Option<Cut>, AllocError>
    requires there { i < length prepared.now.terms.terms.items }
    requires prepared { IsPrepared computation.now prepared.now.rows.rows.items
        (map literal_view prepared.now.terms.literals.items) prepared.now.places.items }
    requires names { (sums : List ModelLiteral)
        → AreSums (slice_index_or (terms_at prepared.now.terms.literals.items
        (numbers_view prepared.now.terms.terms.items)) i []) sums
        → AreNamedBelow (length computation.now.events) sums }
    requires decided { IsDecidedTerm computation.now (slice_index_or (terms_at prepared.now.terms.literals.items
        (numbers_view prepared.now.terms.terms.items)) i []) }
    ensures { IfOk result (IsLowestIfAny (Satisfies computation.now
        (slice_index_or (terms_at prepared.now.terms.literals.items (numbers_view prepared.now.terms.terms.items))
        i []))) }
{
    let split = prepared.split(alloc, computation, i)?;
    let good = prepared.good(&split);
    let found = slice_of(alloc, computation, &good)?;
    match found {
        Some(slice) => {
            let cut = lowest_in_slice(alloc, computation, &good, &slice, &split.sums)?;
            Ok(cut)
        }
        None => Ok(None),
    }
}

/// The first cut that satisfies a predicate decided by sums, in another order of cuts: by their greatest counts, and
/// those with the same one lexicographically. `None` if no consistent cut satisfies the predicate. No level is walked.
///
/// The slice of each term is made once. With n processes, a comparison of several of them then takes up to n + 1 passes
/// over the events, and `!=` twice as many.
///
/// # Errors
/// An allocation was refused.
pub fn first_by_sums(
    alloc: Global,
    computation: &Computation<'_>,
    tree: &Tree,
) -> Result<Option<Cut>, AllocError>
    requires { IsDecidedBySums computation.now (tree_view tree.now) }
    ensures { IfOk result (λ first. MatchOption first
        (¬ Possibly computation.now.events (test_of computation.now (tree_view tree.now)))
        (IsFirstByHeight computation.now.events (test_of computation.now (tree_view tree.now)))) }
{
    let prepared = Prepared::of(alloc, computation, tree)?;
    let mut first = None;
    for i in 0..prepared.len() {
        let cut = lowest_of_term(alloc, computation, &prepared, i)?;
        first = lower_of(first, cut);
    }
    Ok(first)
}
