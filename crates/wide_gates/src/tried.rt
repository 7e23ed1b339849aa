//! The first tried cut that satisfies a predicate.
ghost use Rattle.def_model.specs.Predicates.{test_of};
ghost use Rattle.def_model.specs.Events.{IsEvent};
ghost use Rattle.def_wide.specs.Tried.{IsEndOf, IsFirstTried};
ghost use Rattle.pd_pred.specs.Views.{predicate_view};
ghost use Rattle.wide_gates.specs.Ends.{AreBelowHighs, AreHighs, IsEndIn};
ghost use Rattle.wide_gates.specs.Seen.{AfterBest, IsFirstSeen, IsGood};
ghost use Rattle.wide_gates.specs.Spots.{AreThere, IsAt, event_of};
ghost use Rattle.wide_gates.specs.declared.spot.Spot.{Spot};
ghost use Rattle.std.specs.Prelude.{IfOk, IfSome, List, MatchOption, length, ℕ};

use super::ends::{end_at, next_highs};
use super::seen::better;
use super::spot::{Spot, all_spots};
use super::way::look_back;
use pd_clock::{Computation, Cut};
use pd_pred::Pred;
use std::alloc::{AllocError, Global};

/// The first good cut of the best one so far, and the least and the greatest at a spot.
fn look_at(
    alloc: Global,
    computation: &Computation<'_>,
    pred: &Pred,
    spot: Spot,
    highs: &[u64],
    best: Option<Cut>,
) -> Result<Option<Cut>, AllocError>
    requires event { IsEvent computation.now.events (event_of spot) }
    requires highs { AreHighs computation.now.events (event_of spot) highs.now }
    requires best { IfSome best (IsGood computation.now (predicate_view pred.now)) }
    ensures { IfOk result (IsFirstSeen computation.now (predicate_view pred.now)
        (AfterBest best (IsEndOf (IsAt computation.now.events spot)))) }
{
    computation.limits();
    let least = end_at(alloc, computation, spot, highs, false)?;
    let greatest = end_at(alloc, computation, spot, highs, true)?;
    let found = better(computation, pred, best, least);
    let found = better(computation, pred, found, greatest);
    Ok(found)
}

/// The first good cut of the least and the greatest at each spot. `highs` has no number that is too great for any.
fn look_at_each(
    alloc: Global,
    computation: &Computation<'_>,
    pred: &Pred,
    spots: &[Spot],
    highs: &mut [u64],
) -> Result<Option<Cut>, AllocError>
    requires spots { AreThere computation.now.events spots.now }
    requires none { (d : Spot) → AreBelowHighs computation.now.events (event_of d) highs.old }
    ensures { IfOk result (IsFirstSeen computation.now (predicate_view pred.now)
        (IsEndIn computation.now.events spots.now (length spots.now))) }
{
    let mut found = None;
    for k in 0..spots.len() {
        next_highs(computation, spots, k, highs);
        found = look_at(alloc, computation, pred, spots[k], highs, found)?;
    }
    Ok(found)
}

/// The same, from none that is known.
fn look_at_spots(
    alloc: Global,
    computation: &Computation<'_>,
    pred: &Pred,
    spots: &[Spot],
) -> Result<Option<Cut>, AllocError>
    requires { AreThere computation.now.events spots.now }
    ensures { IfOk result (IsFirstSeen computation.now (predicate_view pred.now)
        (IsEndIn computation.now.events spots.now (length spots.now))) }
{
    let mut highs = vec![in alloc; 0; computation.processes()]?;
    let found = look_at_each(alloc, computation, pred, spots, &mut highs)?;
    Ok(found)
}

/// The first tried cut that satisfies a predicate, if any does: of the least and the greatest cuts right before and
/// right after each event, and of those on the way back from the full cut, that with the fewest events, and of as many
/// the lexicographically first.
///
/// It looks at five cuts for each event, and keeps some fifty bytes for each.
///
/// # Errors
/// An allocation was refused.
pub fn first_tried(
    alloc: Global,
    computation: &Computation<'_>,
    pred: &Pred,
) -> Result<Option<Cut>, AllocError>
    ensures { IfOk result (λ found. MatchOption found
        ((cut : List ℕ) → ¬ IsFirstTried computation.now.events (test_of computation.now (predicate_view pred.now)) cut)
        (IsFirstTried computation.now.events (test_of computation.now (predicate_view pred.now)))) }
{
    computation.limits();
    let spots = all_spots(alloc, computation)?;
    let best = look_at_spots(alloc, computation, pred, &spots)?;
    let found = look_back(alloc, computation, pred, best)?;
    Ok(found)
}
