//! A comparison of a term.
ghost use Rattle.pd_pred.specs.Trees.{comparison_view};
ghost use Rattle.wide_sums.specs.Literals.{IsNumberOf, literal_view};
ghost use Rattle.std.specs.Prelude.{◌≡◌, ℕ, IfSome, IsTrue};

use pd_pred::{Comparison, Sum, Tree};
use wide_terms::is_same_sum;

/// A comparison of a predicate, with its parts, or its opposite if `negated`.
#[derive(Clone, Copy)]
pub(crate) struct Literal<'a> {
    /// The comparison.
    pub(crate) tree: &'a Tree,
    pub(crate) negated: bool,
    /// The parts of the comparison, which aren't negated.
    pub(crate) left: &'a Sum,
    pub(crate) comparison: Comparison,
    pub(crate) right: &'a Sum,
}

/// How the sums of a comparison are compared, or of its opposite if it is negated.
pub(crate) fn comparison_of(literal: Literal<'_>) -> Comparison
    ensures { comparison_view result ≡ (literal_view literal.entry).comparison }
{
    if !literal.negated {
        return literal.comparison;
    }
    match literal.comparison {
        Comparison::Equals => Comparison::Differs,
        Comparison::Differs => Comparison::Equals,
        Comparison::IsLess => Comparison::IsAtLeast,
        Comparison::IsAtMost => Comparison::IsGreater,
        Comparison::IsGreater => Comparison::IsAtMost,
        Comparison::IsAtLeast => Comparison::IsLess,
    }
}

/// Whether two comparisons are equal, and both are negated or neither is.
fn is_same(first: &Literal<'_>, second: &Literal<'_>) -> bool
    ensures { IsTrue result → literal_view first.now ≡ literal_view second.now }
{
    first.negated == second.negated
        && first.comparison == second.comparison
        && is_same_sum(first.left, second.left)
        && is_same_sum(first.right, second.right)
}

/// The number of the first comparison that is equal to another one, if there is any.
pub(crate) fn number_of(literals: &[Literal<'_>], wanted: &Literal<'_>) -> Option<usize>
    ensures { IfSome result (IsNumberOf literals.now (literal_view wanted.now)) }
{
    for i in 0..literals.len() {
        if is_same(&literals[i], wanted) {
            return Some(i);
        }
    }
    None
}
