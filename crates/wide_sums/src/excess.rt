//! By how much the left sum of a comparison is more than the right one over a slice, and the other way round.
ghost use Rattle.def_wide.specs.Sums.{AtEach, NameBelow};
ghost use Rattle.pd_pred.specs.Trees.{sum_view};
ghost use Rattle.wide_slice.specs.Slices.{IsSlice};
ghost use Rattle.wide_slice.specs.Steps.{IsInside};
ghost use Rattle.wide_sums.specs.Excesses.{IsExcess};
ghost use Rattle.wide_sums.specs.Literals.{literal_view};
ghost use Rattle.wide_sums.specs.Verdicts.{AtSome};
ghost use Rattle.std.specs.Prelude.{◌≡◌, ◌≤◌, ◌-ℤ◌, ◌<ℤ◌, ◌≤ℤ◌, IfOk, false, length, pos, true, unsigned_abs};

use super::literal::Literal;
use super::values::values_of;
use pd_clock::Computation;
use std::alloc::{AllocError, Global};
use wide_conjunctions::GoodCounts;
use wide_reach::some_reaches;
use wide_slice::Slice;

/// The slice of a term: the computation, which counts are good for the comparisons of one process, and the cuts at
/// which all of these hold.
#[derive(Drop)]
pub(crate) struct Setting<'a, 'c, G> {
    pub(crate) computation: &'a Computation<'c>,
    pub(crate) wanted: &'a G,
    pub(crate) slice: &'a Slice,
}

/// What each process adds to the left sum of a comparison less the right one, by its count, and the other way round.
#[derive(Drop)]
pub(crate) struct Excess {
    pub(crate) above: Vec<Vec<i128>>,
    pub(crate) below: Vec<Vec<i128>>,
}

impl Excess {
    /// The excess of a comparison's sums.
    ///
    /// # Errors
    /// An allocation was refused.
    pub(crate) fn of(
        alloc: Global,
        computation: &Computation<'_>,
        literal: &Literal<'_>,
    ) -> Result<Excess, AllocError>
        requires left { NameBelow (length computation.now.events) (sum_view literal.now.left.now) }
        requires right { NameBelow (length computation.now.events) (sum_view literal.now.right.now) }
        ensures { IfOk result (IsExcess computation.now (literal_view literal.now)) }
    {
        let above = values_of(alloc, computation, literal.left, literal.right)?;
        let below = values_of(alloc, computation, literal.right, literal.left)?;
        Ok(Excess { above, below })
    }
}

/// Whether the left sum of a comparison is more than the right one by `least` or more at some cut of the slice. The
/// comparison is there for the contract alone.
///
/// # Errors
/// An allocation was refused.
pub(crate) fn is_above<G: GoodCounts>(
    alloc: Global,
    at: &Setting<'_, '_, G>,
    _literal: &Literal<'_>,
    excess: &Excess,
    least: i128,
) -> Result<bool, AllocError>
    requires slice { IsSlice at.now.computation.now.events (G.good at.now.wanted.now) at.now.slice.now }
    requires excess { IsExcess at.now.computation.now (literal_view _literal.now) excess.now }
    requires small { unsigned_abs least ≤ 1 }
    ensures some { IfOk result (λ found. found ≡ true
        → AtSome (IsInside at.now.computation.now.events (G.good at.now.wanted.now)) at.now.computation.now
        (literal_view _literal.now) (λ x. least ≤ℤ x)) }
    ensures none { IfOk result (λ found. found ≡ false
        → AtEach (IsInside at.now.computation.now.events (G.good at.now.wanted.now)) at.now.computation.now
        (literal_view _literal.now) (λ x. x <ℤ least)) }
{
    some_reaches(
        alloc,
        at.computation,
        at.wanted,
        at.slice,
        &excess.above,
        least,
    )
}

/// Whether it is less by `least` or more at some cut of the slice.
///
/// # Errors
/// An allocation was refused.
pub(crate) fn is_below<G: GoodCounts>(
    alloc: Global,
    at: &Setting<'_, '_, G>,
    _literal: &Literal<'_>,
    excess: &Excess,
    least: i128,
) -> Result<bool, AllocError>
    requires slice { IsSlice at.now.computation.now.events (G.good at.now.wanted.now) at.now.slice.now }
    requires excess { IsExcess at.now.computation.now (literal_view _literal.now) excess.now }
    requires small { unsigned_abs least ≤ 1 }
    ensures some { IfOk result (λ found. found ≡ true
        → AtSome (IsInside at.now.computation.now.events (G.good at.now.wanted.now)) at.now.computation.now
        (literal_view _literal.now) (λ x. x ≤ℤ (pos 0 -ℤ least))) }
    ensures none { IfOk result (λ found. found ≡ false
        → AtEach (IsInside at.now.computation.now.events (G.good at.now.wanted.now)) at.now.computation.now
        (literal_view _literal.now) (λ x. (pos 0 -ℤ least) <ℤ x)) }
{
    some_reaches(
        alloc,
        at.computation,
        at.wanted,
        at.slice,
        &excess.below,
        least,
    )
}
