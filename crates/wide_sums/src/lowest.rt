//! The lowest cut of a slice that satisfies a comparison.
ghost use Rattle.def_wide.specs.Sums.{NameBelow};
ghost use Rattle.pd_pred.specs.Trees.{comparison_view, sum_view};
ghost use Rattle.wide_slice.specs.Slices.{IsSlice};
ghost use Rattle.wide_slice.specs.Steps.{IsInside};
ghost use Rattle.wide_sums.specs.Excesses.{IsExcess};
ghost use Rattle.wide_sums.specs.FirstCuts.{HasExcess, IsLowestAs, IsLowestEqual, IsLowestIfAny};
ghost use Rattle.wide_sums.specs.Literals.{literal_view};
ghost use Rattle.wide_sums.specs.Verdicts.{Relates};
ghost use Rattle.def_model.specs.Predicates as model;
ghost use Rattle.std.specs.Prelude.{◌≤◌, ◌-ℤ◌, ◌≤ℤ◌, IfOk, length, pos, unsigned_abs};

use super::excess::{Excess, Setting};
use super::literal::{Literal, comparison_of};
use super::lower::lower_of;
use super::steps::excess_at;
use pd_clock::Cut;
use pd_pred::Comparison;
use std::alloc::{AllocError, Global};
use wide_conjunctions::GoodCounts;
use wide_reach::lowest_with;

/// The lowest cut of the slice at which the left sum of a comparison is more than the right one by `least` or more. The
/// comparison is there for the contract alone.
///
/// # Errors
/// An allocation was refused.
fn lowest_above<G: GoodCounts>(
    alloc: Global,
    at: &Setting<'_, '_, G>,
    _literal: &Literal<'_>,
    excess: &Excess,
    least: i128,
) -> Result<Option<Cut>, AllocError>
    requires slice { IsSlice at.now.computation.now.events (G.good at.now.wanted.now) at.now.slice.now }
    requires excess { IsExcess at.now.computation.now (literal_view _literal.now) excess.now }
    requires small { unsigned_abs least ≤ 1 }
    ensures { IfOk result (IsLowestIfAny (HasExcess
        (IsInside at.now.computation.now.events (G.good at.now.wanted.now)) at.now.computation.now
        (literal_view _literal.now) (λ x. least ≤ℤ x))) }
{
    lowest_with(
        alloc,
        at.computation,
        at.wanted,
        at.slice,
        &excess.above,
        least,
    )
}

/// The lowest cut of the slice at which it is less by `least` or more.
///
/// # Errors
/// An allocation was refused.
fn lowest_below<G: GoodCounts>(
    alloc: Global,
    at: &Setting<'_, '_, G>,
    _literal: &Literal<'_>,
    excess: &Excess,
    least: i128,
) -> Result<Option<Cut>, AllocError>
    requires slice { IsSlice at.now.computation.now.events (G.good at.now.wanted.now) at.now.slice.now }
    requires excess { IsExcess at.now.computation.now (literal_view _literal.now) excess.now }
    requires small { unsigned_abs least ≤ 1 }
    ensures { IfOk result (IsLowestIfAny (HasExcess
        (IsInside at.now.computation.now.events (G.good at.now.wanted.now)) at.now.computation.now
        (literal_view _literal.now) (λ x. x ≤ℤ (pos 0 -ℤ least)))) }
{
    lowest_with(
        alloc,
        at.computation,
        at.wanted,
        at.slice,
        &excess.below,
        least,
    )
}

/// The least cut of the slice if the sums are equal there, and else the lowest cut at which the one that is less there
/// has come to the other or passed it.
///
/// # Errors
/// An allocation was refused.
fn lowest_equal<G: GoodCounts>(
    alloc: Global,
    at: &Setting<'_, '_, G>,
    literal: &Literal<'_>,
    excess: &Excess,
) -> Result<Option<Cut>, AllocError>
    requires slice { IsSlice at.now.computation.now.events (G.good at.now.wanted.now) at.now.slice.now }
    requires excess { IsExcess at.now.computation.now (literal_view literal.now) excess.now }
    ensures { IfOk result (IsLowestEqual (IsInside at.now.computation.now.events (G.good at.now.wanted.now))
        at.now.computation.now (literal_view literal.now) at.now.slice.now.least.items) }
{
    let first = excess_at(at.computation, literal, excess, at.slice.least());
    if first < 0 {
        return lowest_above(alloc, at, literal, excess, 0);
    }
    if first > 0 {
        return lowest_below(alloc, at, literal, excess, 0);
    }
    let cut = Cut::new(alloc, at.slice.least())?;
    Ok(Some(cut))
}

/// The lowest cut of the slice at which the sums differ.
///
/// # Errors
/// An allocation was refused.
fn lowest_differing<G: GoodCounts>(
    alloc: Global,
    at: &Setting<'_, '_, G>,
    literal: &Literal<'_>,
    excess: &Excess,
) -> Result<Option<Cut>, AllocError>
    requires slice { IsSlice at.now.computation.now.events (G.good at.now.wanted.now) at.now.slice.now }
    requires excess { IsExcess at.now.computation.now (literal_view literal.now) excess.now }
    ensures { IfOk result (IsLowestIfAny (HasExcess
        (IsInside at.now.computation.now.events (G.good at.now.wanted.now)) at.now.computation.now
        (literal_view literal.now) (Relates model.Differs))) }
{
    let above = lowest_above(alloc, at, literal, excess, 1)?;
    let below = lowest_below(alloc, at, literal, excess, 1)?;
    Ok(lower_of(above, below))
}

/// The lowest cut of the slice that satisfies a comparison of these sums, and of `==` one at which they are equal or
/// have just passed each other.
///
/// # Errors
/// An allocation was refused.
fn lowest_as<G: GoodCounts>(
    alloc: Global,
    at: &Setting<'_, '_, G>,
    literal: &Literal<'_>,
    excess: &Excess,
    comparison: Comparison,
) -> Result<Option<Cut>, AllocError>
    requires slice { IsSlice at.now.computation.now.events (G.good at.now.wanted.now) at.now.slice.now }
    requires excess { IsExcess at.now.computation.now (literal_view literal.now) excess.now }
    ensures { IfOk result (IsLowestAs (comparison_view comparison)
        (IsInside at.now.computation.now.events (G.good at.now.wanted.now)) at.now.computation.now
        (literal_view literal.now) at.now.slice.now.least.items) }
{
    match comparison {
        Comparison::Equals => lowest_equal(alloc, at, literal, excess),
        Comparison::Differs => lowest_differing(alloc, at, literal, excess),
        Comparison::IsLess => lowest_below(alloc, at, literal, excess, 1),
        Comparison::IsAtMost => lowest_below(alloc, at, literal, excess, 0),
        Comparison::IsGreater => lowest_above(alloc, at, literal, excess, 1),
        Comparison::IsAtLeast => lowest_above(alloc, at, literal, excess, 0),
    }
}

/// The lowest cut of the slice that satisfies a comparison, and of `==` one at which its sums are equal or have just
/// passed each other.
///
/// # Errors
/// An allocation was refused.
pub(crate) fn lowest_of_one<G: GoodCounts>(
    alloc: Global,
    at: &Setting<'_, '_, G>,
    literal: &Literal<'_>,
) -> Result<Option<Cut>, AllocError>
    requires slice { IsSlice at.now.computation.now.events (G.good at.now.wanted.now) at.now.slice.now }
    requires left { NameBelow (length at.now.computation.now.events) (sum_view literal.now.left.now) }
    requires right { NameBelow (length at.now.computation.now.events) (sum_view literal.now.right.now) }
    ensures { IfOk result (IsLowestAs (literal_view literal.now).comparison
        (IsInside at.now.computation.now.events (G.good at.now.wanted.now)) at.now.computation.now
        (literal_view literal.now) at.now.slice.now.least.items) }
{
    let excess = Excess::of(alloc, at.computation, literal)?;
    let comparison = comparison_of(*literal);
    let found = lowest_as(alloc, at, literal, &excess, comparison)?;
    Ok(found)
}
