//! How a sum is compared with 0.
ghost use Rattle.def_model.specs.Predicates as model;
ghost use Rattle.pd_pred.specs.Trees.{comparison_view};
ghost use Rattle.walk_tables.specs.Zero.{IsBetween, compares_with_zero, turned};
ghost use Rattle.std.specs.Prelude.{◌≡◌, ℤ, IfSome, cond, not, true};

use pd_pred::Comparison;

/// Whether the number stands in this relation to 0.
pub(crate) fn holds_at_zero(comparison: Comparison, value: i64) -> bool
    ensures { result ≡ compares_with_zero comparison value }
{
    match comparison {
        Comparison::Equals => value == 0,
        Comparison::Differs => value != 0,
        Comparison::IsLess => value < 0,
        Comparison::IsAtMost => value <= 0,
        Comparison::IsGreater => value > 0,
        Comparison::IsAtLeast => value >= 0,
    }
}

/// The relation in which exactly those numbers stand that don't stand in this one.
fn opposite(comparison: Comparison) -> Comparison
    ensures { (a b : ℤ) → model.compares (comparison_view result) a b
        ≡ not (model.compares (comparison_view comparison) a b) }
{
    match comparison {
        Comparison::Equals => Comparison::Differs,
        Comparison::Differs => Comparison::Equals,
        Comparison::IsLess => Comparison::IsAtLeast,
        Comparison::IsAtMost => Comparison::IsGreater,
        Comparison::IsGreater => Comparison::IsAtMost,
        Comparison::IsAtLeast => Comparison::IsLess,
    }
}

/// The relation, or its opposite where `negated`.
pub(crate) fn turned_comparison(comparison: Comparison, negated: bool) -> Comparison
    ensures { (a b : ℤ) → model.compares (comparison_view result) a b
        ≡ turned negated (model.compares (comparison_view comparison) a b) }
{
    if negated {
        opposite(comparison)
    } else {
        comparison
    }
}

/// Whether all numbers between these two stand in the relation to 0, or none; nothing if that isn't sure.
pub(crate) fn decided(comparison: Comparison, least: i64, greatest: i64) -> Option<bool>
    ensures { IfSome result (λ truth. (value : ℤ) → IsBetween least greatest value
        → compares_with_zero comparison value ≡ truth) }
{
    match comparison {
        Comparison::Equals => is_zero(least, greatest),
        Comparison::Differs => match is_zero(least, greatest) {
            Some(truth) => Some(!truth),
            None => None,
        },
        Comparison::IsLess => below(least >= 0, greatest < 0),
        Comparison::IsAtMost => below(least > 0, greatest <= 0),
        Comparison::IsGreater => below(greatest <= 0, least > 0),
        Comparison::IsAtLeast => below(greatest < 0, least >= 0),
    }
}

/// False if none holds, true if all hold, and else nothing.
fn below(none: bool, all: bool) -> Option<bool>
    ensures { IfSome result (λ truth. cond truth all none ≡ true) }
{
    if none {
        Some(false)
    } else if all {
        Some(true)
    } else {
        None
    }
}

/// Whether all numbers between these two are 0, or none; nothing if that isn't sure.
fn is_zero(least: i64, greatest: i64) -> Option<bool>
    ensures { IfSome result (λ truth. (value : ℤ) → IsBetween least greatest value
        → compares_with_zero Comparison.Equals value ≡ truth) }
{
    if least > 0 || greatest < 0 {
        Some(false)
    } else if least == 0 && greatest == 0 {
        Some(true)
    } else {
        None
    }
}
