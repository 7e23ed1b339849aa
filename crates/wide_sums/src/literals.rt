//! The terms of a predicate, by the numbers of their comparisons.
ghost use Rattle.def_wide.specs.Terms.{terms_of};
ghost use Rattle.pd_pred.specs.Trees.{tree_view};
ghost use Rattle.wide_sums.specs.Literals.{IsWhole, MakesTerms, TakesLiteral, literal_view, terms_at};
ghost use Rattle.wide_terms.specs.Rows.{numbers_view};
ghost use Rattle.std.specs.Prelude.{◌≡◌, ◌<◌, All, IfOk, false, length};

use super::literal::{Literal, number_of};
use pd_pred::Tree;
use std::alloc::{AllocError, Global};
use wide_terms::{constant, joined, single};

/// A predicate as an `or` of terms, each of which has the numbers of its comparisons.
#[derive(Drop)]
pub(crate) struct Terms<'a> {
    pub(crate) literals: Vec<Literal<'a>>,
    pub(crate) terms: Vec<Vec<usize>>,
    ghost sound: { All (All (λ i. i < length literals.items)) (numbers_view terms.items) },
}

/// The number of a comparison: of an earlier one that is equal, or else of itself, which is put after the others.
fn literal_number<'a>(
    literal: Literal<'a>,
    literals: &mut Vec<Literal<'a>>,
) -> Result<usize, AllocError>
    requires { IsWhole literal }
    ensures { IfOk result (TakesLiteral (literal_view literal.entry) literals.old.items literals.new.items) }
{
    match number_of(literals, &literal) {
        Some(number) => Ok(number),
        None => {
            let number = literals.len();
            literals.push(literal)?;
            Ok(number)
        }
    }
}

/// The terms of a predicate, or of its opposite if `negated`, by comparisons that are put after the others. Equal
/// comparisons have one number.
fn build<'a>(
    alloc: Global,
    tree: &'a Tree,
    negated: bool,
    literals: &mut Vec<Literal<'a>>,
) -> Result<Vec<Vec<usize>>, AllocError>
    ensures { IfOk result (λ terms. MakesTerms (terms_of negated (tree_view tree.now)) literals.old.items
        literals.new.items (numbers_view terms.items)) }
{
    match tree {
        Tree::Always => Ok(constant(alloc, !negated)?),
        Tree::Never => Ok(constant(alloc, negated)?),
        Tree::Compare {
            left,
            comparison,
            right,
        } => {
            let literal = Literal {
                tree,
                negated,
                left,
                comparison: *comparison,
                right,
            };
            let number = literal_number(literal, literals)?;
            Ok(single(alloc, number)?)
        }
        Tree::Not(inner) => build(alloc, inner, !negated, literals),
        Tree::And(left, right) => {
            let first = build(alloc, left, negated, literals)?;
            let second = build(alloc, right, negated, literals)?;
            Ok(joined(alloc, negated, first, second)?)
        }
        Tree::Or(left, right) => {
            let first = build(alloc, left, negated, literals)?;
            let second = build(alloc, right, negated, literals)?;
            Ok(joined(alloc, !negated, first, second)?)
        }
    }
}

impl<'a> Terms<'a> {
    /// The terms of a predicate. They are as many as its comparisons give, so they are counted before.
    ///
    /// # Errors
    /// An allocation was refused.
    pub(crate) fn of(alloc: Global, tree: &'a Tree) -> Result<Terms<'a>, AllocError>
        ensures whole { IfOk result (λ terms. All IsWhole terms.literals.items) }
        ensures terms { IfOk result (λ terms. terms_at terms.literals.items (numbers_view terms.terms.items)
            ≡ terms_of false (tree_view tree.now)) }
    {
        let mut literals = Vec::new(alloc);
        let terms = build(alloc, tree, false, &mut literals)?;
        Ok(Terms { literals, terms })
    }
}
