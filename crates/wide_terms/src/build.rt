//! How terms are made.
ghost use Rattle.pd_pred.specs.Trees.{tree_view};
ghost use Rattle.def_model.specs.Decided.{IsLocal};
ghost use Rattle.wide_terms.specs.KnownRows.{AreRowsOf};
ghost use Rattle.wide_terms.specs.Rows.{MakesTerms, numbers_view};
ghost use Rattle.std.specs.Prelude.{IfOk};

use super::joins::{constant, joined, single};
use super::known::{Known, row_number};
use super::row::TruthRow;
use pd_clock::Computation;
use pd_pred::Tree;
use std::alloc::{AllocError, Global};

/// The terms of a predicate, or of its opposite where `negated`, by rows that are put after the others. Equal
/// comparisons have one row: `known` has the comparison of each.
///
/// # Errors
/// An allocation was refused.
pub(crate) fn build<'a>(
    alloc: Global,
    computation: &Computation<'_>,
    tree: &'a Tree,
    negated: bool,
    rows: &mut Vec<TruthRow>,
    known: &mut Vec<Known<'a>>,
) -> Result<Vec<Vec<usize>>, AllocError>
    requires local { IsLocal (tree_view tree.now) }
    requires known { AreRowsOf computation.now known.old.items rows.old.items }
    ensures made { IfOk result (λ terms. MakesTerms computation.now negated (tree_view tree.now) rows.old.items
        rows.new.items (numbers_view terms.items)) }
    ensures known { IfOk result (λ _. AreRowsOf computation.now known.new.items rows.new.items) }
{
    match tree {
        Tree::Always => constant(alloc, !negated),
        Tree::Never => constant(alloc, negated),
        Tree::Compare { left, right, .. } => {
            let wanted = Known { tree, negated };
            let number = row_number(alloc, computation, wanted, left, right, rows, known)?;
            single(alloc, number)
        }
        Tree::Not(inner) => build(alloc, computation, inner, !negated, rows, known),
        Tree::And(left, right) => {
            let first = build(alloc, computation, left, negated, rows, known)?;
            let second = build(alloc, computation, right, negated, rows, known)?;
            joined(alloc, negated, first, second)
        }
        Tree::Or(left, right) => {
            let first = build(alloc, computation, left, negated, rows, known)?;
            let second = build(alloc, computation, right, negated, rows, known)?;
            joined(alloc, !negated, first, second)
        }
    }
}
