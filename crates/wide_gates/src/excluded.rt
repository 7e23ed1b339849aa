//! Which comparisons are excluded by the greatest excess.
ghost use Rattle.def_wide.specs.Terms.{opposite};
ghost use Rattle.pd_pred.specs.Trees.{comparison_view};
ghost use Rattle.wide_gates.specs.Excluded.{ExcludedBy, IsOfAbove, IsOfBelow};
ghost use Rattle.std.specs.Prelude.{◌≡◌, ◌↔◌, IsTrue, cond};

use pd_pred::Comparison;

/// The comparison that holds where this one doesn't.
fn opposite_of(comparison: Comparison) -> Comparison
    ensures { comparison_view result ≡ opposite (comparison_view comparison) }
{
    match comparison {
        Comparison::Equals => Comparison::Differs,
        Comparison::Differs => Comparison::Equals,
        Comparison::IsLess => Comparison::IsAtLeast,
        Comparison::IsAtMost => Comparison::IsGreater,
        Comparison::IsGreater => Comparison::IsAtMost,
        Comparison::IsAtLeast => Comparison::IsLess,
    }
}

/// The comparison that has to be excluded for this one to have the value.
pub(crate) fn excluding(comparison: Comparison, value: bool) -> Comparison
    ensures { comparison_view result ≡ cond value (opposite (comparison_view comparison)) (comparison_view comparison) }
{
    if value {
        return opposite_of(comparison);
    }
    comparison
}

/// Whether the left sum alone, by how much it is more than the right one, excludes the comparison.
pub(crate) fn is_of_above(comparison: Comparison) -> bool
    ensures { IsTrue result → IsOfAbove (comparison_view comparison) }
{
    match comparison {
        Comparison::Equals => false,
        Comparison::Differs => false,
        Comparison::IsLess => false,
        Comparison::IsAtMost => false,
        Comparison::IsGreater => true,
        Comparison::IsAtLeast => true,
    }
}

/// Whether the right sum alone does, by how much it is more than the left one.
pub(crate) fn is_of_below(comparison: Comparison) -> bool
    ensures { IsTrue result → IsOfBelow (comparison_view comparison) }
{
    match comparison {
        Comparison::Equals => false,
        Comparison::Differs => false,
        Comparison::IsLess => true,
        Comparison::IsAtMost => true,
        Comparison::IsGreater => false,
        Comparison::IsAtLeast => false,
    }
}

/// Whether a comparison is excluded where its left sum is more than the right one by `above` at most, and its right sum
/// more than the left one by `below` at most.
pub(crate) fn is_excluded(comparison: Comparison, above: i128, below: i128) -> bool
    ensures { IsTrue result ↔ ExcludedBy (comparison_view comparison) above below }
{
    match comparison {
        Comparison::Equals => above < 0 || below < 0,
        Comparison::Differs => above <= 0 && below <= 0,
        Comparison::IsLess => below <= 0,
        Comparison::IsAtMost => below < 0,
        Comparison::IsGreater => above <= 0,
        Comparison::IsAtLeast => above < 0,
    }
}
