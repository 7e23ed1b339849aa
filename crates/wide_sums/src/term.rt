//! What a term of a predicate comes to.
ghost use Rattle.def_wide.specs.Sums.{IsExcludedAs, NameBelow};
ghost use Rattle.def_wide.specs.Terms.{Literal as ModelLiteral};
ghost use Rattle.wide_slice.specs.Slices.{IsSlice};
ghost use Rattle.wide_slice.specs.Steps.{IsInside};
ghost use Rattle.wide_sums.specs.Literals.{literal_view};
ghost use Rattle.wide_sums.specs.Splits.{AreSums};
ghost use Rattle.wide_sums.specs.TermVerdicts.{AreNamedBelow, HasExcluded, HasNoExcluded, IsSliceFor, IsVerdictOf};
ghost use Rattle.std.specs.Prelude.{◌≡◌, ◌↔◌, IfOk, IsTrue, List, false, length, map, true};

use super::excess::{Excess, Setting};
use super::excluded::is_excluded;
use super::literal::{Literal, comparison_of};
use super::solved::verdict_of_one;
use super::verdict::Verdict;
use pd_clock::Computation;
use std::alloc::{AllocError, Global};
use wide_conjunctions::GoodCounts;
use wide_slice::Slice;

/// Whether some of these comparisons is excluded over the slice.
///
/// # Errors
/// An allocation was refused.
fn has_excluded<G: GoodCounts>(
    alloc: Global,
    at: &Setting<'_, '_, G>,
    sums: &[Literal<'_>],
) -> Result<bool, AllocError>
    requires slice { IsSlice at.now.computation.now.events (G.good at.now.wanted.now) at.now.slice.now }
    requires names { AreNamedBelow (length at.now.computation.now.events) (map literal_view sums.now) }
    ensures some { IfOk result (λ found. found ≡ true
        → HasExcluded (IsInside at.now.computation.now.events (G.good at.now.wanted.now)) at.now.computation.now
        (map literal_view sums.now)) }
    ensures none { IfOk result (λ found. found ≡ false
        → HasNoExcluded (IsInside at.now.computation.now.events (G.good at.now.wanted.now)) at.now.computation.now
        (map literal_view sums.now)) }
{
    for i in 0..sums.len() {
        let literal = &sums[i];
        let excess = Excess::of(alloc, at.computation, literal)?;
        if is_excluded(alloc, at, literal, &excess, comparison_of(*literal))? {
            return Ok(true);
        }
    }
    Ok(false)
}

/// What a term with these sums comes to over its slice. One of them stands `alone` if it is the whole term.
///
/// # Errors
/// An allocation was refused.
pub(crate) fn verdict_in_slice<G: GoodCounts>(
    alloc: Global,
    computation: &Computation<'_>,
    wanted: &G,
    slice: &Slice,
    sums: &[Literal<'_>],
    alone: bool,
) -> Result<Verdict, AllocError>
    requires slice { IsSlice computation.now.events (G.good wanted.now) slice.now }
    requires names { AreNamedBelow (length computation.now.events) (map literal_view sums.now) }
    ensures { IfOk result (λ verdict. (term : List ModelLiteral) → AreSums term (map literal_view sums.now)
        → (IsTrue alone ↔ (length term ≡ 1)) → IsSliceFor computation.now term (G.good wanted.now)
        → IsVerdictOf computation.now term verdict) }
{
    // no event happened before itself
    computation.limits();
    let at = Setting {
        computation,
        wanted,
        slice,
    };
    if sums.len() == 0 {
        return Ok(Verdict::Satisfied);
    }
    if sums.len() == 1 {
        return verdict_of_one(alloc, &at, &sums[0], alone);
    }
    let excluded = has_excluded(alloc, &at, sums)?;
    if excluded {
        return Ok(Verdict::Unsatisfied);
    }
    Ok(Verdict::Undecided)
}
