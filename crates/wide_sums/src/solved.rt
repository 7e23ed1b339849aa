//! Which `==` of several processes are decided over a slice.
ghost use Rattle.def_model.specs.Predicates as model;
ghost use Rattle.def_wide.specs.Sums.{IsBySmallSteps, NameBelow};
ghost use Rattle.pd_pred.specs.Trees.{comparison_view, sum_view};
ghost use Rattle.wide_slice.specs.Slices.{IsSlice};
ghost use Rattle.wide_slice.specs.Steps.{IsInside};
ghost use Rattle.wide_sums.specs.Excesses.{IsExcess};
ghost use Rattle.wide_sums.specs.Literals.{literal_view};
ghost use Rattle.wide_sums.specs.TermVerdicts.{IsVerdictOfOne};
ghost use Rattle.wide_sums.specs.Verdicts.{IsNotSolvedEqual, IsSolvedEqual};
ghost use Rattle.std.specs.Prelude.{◌≡◌, ◌↔◌, IfOk, IsTrue, false, length, pos, true};

use super::excess::{Excess, Setting, is_above, is_below};
use super::excluded::is_excluded;
use super::literal::{Literal, comparison_of};
use super::steps::{excess_at, is_by_small_steps};
use super::verdict::Verdict;
use pd_clock::Computation;
use pd_pred::Comparison;
use std::alloc::{AllocError, Global};
use wide_conjunctions::GoodCounts;

/// Whether a comparison is `==`.
fn is_equals(comparison: Comparison) -> bool
    ensures { IsTrue result ↔ (comparison_view comparison ≡ model.Equals) }
{
    match comparison {
        Comparison::Equals => true,
        _ => false,
    }
}

/// Whether a number is 0.
fn is_zero(number: i128) -> bool
    ensures { IsTrue result ↔ (number ≡ pos 0) }
{
    number == 0
}

/// Whether an `==` stands alone, and no event can take its excess past 0.
///
/// # Errors
/// An allocation was refused.
fn is_decided_by_steps(
    alloc: Global,
    computation: &Computation<'_>,
    literal: &Literal<'_>,
    excess: &Excess,
    alone: bool,
) -> Result<bool, AllocError>
    requires { IsExcess computation.now (literal_view literal.now) excess.now }
    ensures yes { IfOk result (λ found. found ≡ true
        → (alone ≡ true) × IsBySmallSteps computation.now (literal_view literal.now)) }
    ensures no { IfOk result (λ found. found ≡ false → alone ≡ true
        → ¬ IsBySmallSteps computation.now (literal_view literal.now)) }
{
    if !alone {
        return Ok(false);
    }
    is_by_small_steps(alloc, computation, literal, excess)
}

/// Whether an `==` that isn't excluded is decided over the slice. It stands `alone` if it is the whole term.
///
/// # Errors
/// An allocation was refused.
fn is_solved_equal<G: GoodCounts>(
    alloc: Global,
    at: &Setting<'_, '_, G>,
    literal: &Literal<'_>,
    excess: &Excess,
    alone: bool,
) -> Result<bool, AllocError>
    requires slice { IsSlice at.now.computation.now.events (G.good at.now.wanted.now) at.now.slice.now }
    requires excess { IsExcess at.now.computation.now (literal_view literal.now) excess.now }
    ensures yes { IfOk result (λ found. found ≡ true
        → IsSolvedEqual (IsInside at.now.computation.now.events (G.good at.now.wanted.now)) at.now.computation.now
        (literal_view literal.now) at.now.slice.now.least.items alone) }
    ensures no { IfOk result (λ found. found ≡ false
        → IsNotSolvedEqual (IsInside at.now.computation.now.events (G.good at.now.wanted.now)) at.now.computation.now
        (literal_view literal.now) at.now.slice.now.least.items alone) }
{
    if is_zero(excess_at(at.computation, literal, excess, at.slice.least())) {
        return Ok(true);
    }
    let by_steps = is_decided_by_steps(alloc, at.computation, literal, excess, alone)?;
    if by_steps {
        return Ok(true);
    }
    let above = is_above(alloc, at, literal, excess, 1)?;
    if !above {
        return Ok(true);
    }
    let below = is_below(alloc, at, literal, excess, 1)?;
    Ok(!below)
}

/// What the only sum of a term comes to over its slice. It stands `alone` if it is the whole term.
///
/// # Errors
/// An allocation was refused.
pub(crate) fn verdict_of_one<G: GoodCounts>(
    alloc: Global,
    at: &Setting<'_, '_, G>,
    literal: &Literal<'_>,
    alone: bool,
) -> Result<Verdict, AllocError>
    requires slice { IsSlice at.now.computation.now.events (G.good at.now.wanted.now) at.now.slice.now }
    requires left { NameBelow (length at.now.computation.now.events) (sum_view literal.now.left.now) }
    requires right { NameBelow (length at.now.computation.now.events) (sum_view literal.now.right.now) }
    ensures { IfOk result (IsVerdictOfOne (IsInside at.now.computation.now.events (G.good at.now.wanted.now))
        at.now.computation.now (literal_view literal.now) at.now.slice.now.least.items alone) }
{
    let excess = Excess::of(alloc, at.computation, literal)?;
    let comparison = comparison_of(*literal);
    let excluded = is_excluded(alloc, at, literal, &excess, comparison)?;
    if excluded {
        return Ok(Verdict::Unsatisfied);
    }
    if !is_equals(comparison) {
        return Ok(Verdict::Satisfied);
    }
    let solved = is_solved_equal(alloc, at, literal, &excess, alone)?;
    if solved {
        return Ok(Verdict::Satisfied);
    }
    Ok(Verdict::Undecided)
}
