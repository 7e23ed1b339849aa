//! Rows that equal comparisons share.
ghost use Rattle.pd_pred.specs.Trees.{signed_term_view, sum_view, tree_view};
ghost use Rattle.def_model.specs.Decided.{NameOne};
ghost use Rattle.wide_terms.specs.KnownRows.{AreRowsOf, IsNumberOf};
ghost use Rattle.wide_terms.specs.Locals.{IsComparisonOf};
ghost use Rattle.wide_terms.specs.Rows.{MakesTerms};
ghost use Rattle.std.specs.Prelude.{◌≡◌, ◌∷◌, [], IfOk, IfSome, IsTrue};

use super::row::{TruthRow, row_of};
use pd_clock::Computation;
use pd_pred::{SignedTerm, Sum, Tree};
use std::alloc::{AllocError, Global};

/// A comparison that has a row, or its opposite if `negated`.
#[derive(Clone, Copy)]
pub(crate) struct Known<'a> {
    pub(crate) tree: &'a Tree,
    pub(crate) negated: bool,
}

/// Whether two terms are equal, with their signs.
fn is_same_term(first: SignedTerm, second: SignedTerm) -> bool
    ensures { IsTrue result → signed_term_view first ≡ signed_term_view second }
{
    first == second
}

/// Whether two sums have equal terms in the same order. It looks at each term once at most.
pub fn is_same_sum(first: &Sum, second: &Sum) -> bool
    ensures { IsTrue result → sum_view first.now ≡ sum_view second.now }
{
    if first.terms.len() != second.terms.len() {
        return false;
    }
    for i in 0..first.terms.len() {
        if !is_same_term(first.terms[i], second.terms[i]) {
            return false;
        }
    }
    true
}

/// Whether two predicates are equal comparisons.
fn is_same_comparison(first: &Tree, second: &Tree) -> bool
    ensures { IsTrue result → tree_view first.now ≡ tree_view second.now }
{
    match first {
        Tree::Compare {
            left,
            comparison,
            right,
        } => match second {
            Tree::Compare {
                left: other_left,
                comparison: other,
                right: other_right,
            } => {
                *comparison == *other
                    && is_same_sum(left, other_left)
                    && is_same_sum(right, other_right)
            }
            _ => false,
        },
        _ => false,
    }
}

/// Whether a row of the first is one of the second.
fn has_same_row(first: &Known<'_>, second: &Known<'_>) -> bool
    ensures { IsTrue result → (first.now.negated ≡ second.now.negated)
        × (tree_view first.now.tree.now ≡ tree_view second.now.tree.now) }
{
    first.negated == second.negated && is_same_comparison(first.tree, second.tree)
}

/// The number of the first row that is one of a comparison, if there is any.
fn number_of(known: &[Known<'_>], wanted: &Known<'_>) -> Option<usize>
    ensures { IfSome result (IsNumberOf known.now wanted.now) }
{
    for i in 0..known.len() {
        if has_same_row(&known[i], wanted) {
            return Some(i);
        }
    }
    None
}

/// The number of the row of a comparison that names one process at most: of an earlier one that is equal, or else of
/// one that is put after the others. The sums are those of the comparison.
///
/// # Errors
/// An allocation was refused.
pub(crate) fn row_number<'a>(
    alloc: Global,
    computation: &Computation<'_>,
    wanted: Known<'a>,
    left: &Sum,
    right: &Sum,
    rows: &mut Vec<TruthRow>,
    known: &mut Vec<Known<'a>>,
) -> Result<usize, AllocError>
    requires sums { IsComparisonOf (tree_view wanted.tree.now) (sum_view left.now) (sum_view right.now) }
    requires local { NameOne (sum_view left.now) (sum_view right.now) }
    requires known { AreRowsOf computation.now known.old.items rows.old.items }
    ensures made { IfOk result (λ number. MakesTerms computation.now wanted.entry.negated
        (tree_view wanted.entry.tree.now)
        rows.old.items rows.new.items ((number ∷ []) ∷ [])) }
    ensures known { IfOk result (λ _. AreRowsOf computation.now known.new.items rows.new.items) }
{
    match number_of(known, &wanted) {
        Some(number) => Ok(number),
        None => {
            rows.push(row_of(alloc, computation, wanted.tree, left, right, wanted.negated)?)?;
            known.push(wanted)?;
            Ok(rows.len() - 1)
        }
    }
}
