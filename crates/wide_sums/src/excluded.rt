//! Which comparisons no cut of a slice satisfies.
ghost use Rattle.def_wide.specs.Sums.{IsExcludedAs};
ghost use Rattle.pd_pred.specs.Trees.{comparison_view};
ghost use Rattle.wide_slice.specs.Slices.{IsSlice};
ghost use Rattle.wide_slice.specs.Steps.{IsInside};
ghost use Rattle.wide_sums.specs.Excesses.{IsExcess};
ghost use Rattle.wide_sums.specs.Literals.{literal_view};
ghost use Rattle.wide_sums.specs.Verdicts.{IsNotExcludedAs};
ghost use Rattle.std.specs.Prelude.{◌≡◌, IfOk, false, true};

use super::excess::{Excess, Setting, is_above, is_below};
use super::literal::Literal;
use pd_pred::Comparison;
use std::alloc::{AllocError, Global};
use wide_conjunctions::GoodCounts;

/// Whether no cut of the slice satisfies the comparison of these sums, or if it is `==`, the left sum is less than the
/// right one at each cut, or greater.
///
/// # Errors
/// An allocation was refused.
pub(crate) fn is_excluded<G: GoodCounts>(
    alloc: Global,
    at: &Setting<'_, '_, G>,
    literal: &Literal<'_>,
    excess: &Excess,
    comparison: Comparison,
) -> Result<bool, AllocError>
    requires slice { IsSlice at.now.computation.now.events (G.good at.now.wanted.now) at.now.slice.now }
    requires excess { IsExcess at.now.computation.now (literal_view literal.now) excess.now }
    ensures yes { IfOk result (λ found. found ≡ true → IsExcludedAs (comparison_view comparison)
        (IsInside at.now.computation.now.events (G.good at.now.wanted.now)) at.now.computation.now
        (literal_view literal.now)) }
    ensures no { IfOk result (λ found. found ≡ false → IsNotExcludedAs (comparison_view comparison)
        (IsInside at.now.computation.now.events (G.good at.now.wanted.now)) at.now.computation.now
        (literal_view literal.now)) }
{
    match comparison {
        Comparison::Equals => {
            let above = is_above(alloc, at, literal, excess, 0)?;
            if !above {
                return Ok(true);
            }
            let below = is_below(alloc, at, literal, excess, 0)?;
            Ok(!below)
        }
        Comparison::Differs => {
            let above = is_above(alloc, at, literal, excess, 1)?;
            if above {
                return Ok(false);
            }
            let below = is_below(alloc, at, literal, excess, 1)?;
            Ok(!below)
        }
        Comparison::IsLess => {
            let below = is_below(alloc, at, literal, excess, 1)?;
            Ok(!below)
        }
        Comparison::IsAtMost => {
            let below = is_below(alloc, at, literal, excess, 0)?;
            Ok(!below)
        }
        Comparison::IsGreater => {
            let above = is_above(alloc, at, literal, excess, 1)?;
            Ok(!above)
        }
        Comparison::IsAtLeast => {
            let above = is_above(alloc, at, literal, excess, 0)?;
            Ok(!above)
        }
    }
}
