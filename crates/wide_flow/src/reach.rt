//! The steps that a search has reached.
ghost use Rattle.wide_flow.specs.Flows.{IsFlow, take_at};
ghost use Rattle.wide_flow.specs.Searches.{AreReached, GoesOn, HasReached, IsLookedAt, reached_at};
ghost use Rattle.wide_flow.specs.Steps.{IsPast, is_negative};
ghost use Rattle.std.specs.Prelude.{◌≡◌, ◌<◌, ◌↔◌, IfOk, IsTrue, OnOk, false, length, slice_index, slice_set, ℕ};

use super::step::Step;
use super::takes::Flow;
use std::alloc::{AllocError, Global};

/// A positive step that was reached by one of its takes, whose payer is in the past of the step from which it was
/// reached. With it goes an amount that can be moved along the way.
#[derive(Clone, Copy)]
pub(crate) struct Reached {
    pub(crate) step: usize,
    pub(crate) from: usize,
    pub(crate) by: usize,
    pub(crate) room: u128,
}

/// Whether the step was reached: it stands where it is said to, if it was.
fn is_reached(reached: &[Reached], places: &[usize], step: usize) -> bool
    requires there { step < length places.now }
    requires once { (j : ℕ) → j < length reached.now
        → slice_index places.now (reached_at reached.now j).step ≡ j }
    ensures { IsTrue result ↔ HasReached reached.now step }
{
    let place = places[step];
    place < reached.len() && reached[place].step == step
}

/// Says where the step stands.
fn set_place(places: &mut [usize], step: usize, place: usize)
    requires { step < length places.old }
    ensures { places.new ≡ slice_set places.old step place }
{
    places[step] = place;
}

/// The step from which others are to be reached.
///
/// # Errors
/// An allocation was refused.
pub(crate) fn begin(
    alloc: Global,
    steps: &[Step<'_>],
    flow: &Flow,
    e: usize,
    places: &mut [usize],
) -> Result<Vec<Reached>, AllocError>
    requires flow { IsFlow steps.now flow.now 0 0 }
    requires there { e < length steps.now }
    requires positive { is_negative steps.now e ≡ false }
    requires lacks { 0 < slice_index flow.now.left.items e }
    requires places { length places.old ≡ length steps.now }
    ensures reached { IfOk result (λ reached. AreReached steps.now flow.now reached.items places.new) }
    ensures first { IfOk result (λ reached. (reached_at reached.items 0).step ≡ e) }
{
    let room = flow.left[e];
    let mut reached = Vec::new(alloc);
    reached.push(Reached {
        step: e,
        from: 0,
        by: 0,
        room,
    })?;
    set_place(places, e, 0);
    Ok(reached)
}

/// Reaches the step that a take is of, from the one at place `from`.
///
/// # Errors
/// An allocation was refused.
fn reach(
    steps: &[Step<'_>],
    flow: &Flow,
    reached: &mut Vec<Reached>,
    places: &mut [usize],
    from: usize,
    by: usize,
) -> Result<(), AllocError>
    requires flow { IsFlow steps.now flow.now 0 0 }
    requires reached { AreReached steps.now flow.now reached.old.items places.old }
    requires from { from < length reached.old.items }
    requires by { by < length flow.now.takes.items }
    requires past { IsPast steps.now (take_at flow.now.takes.items by).payer (reached_at reached.old.items from).step }
    requires another { ¬ HasReached reached.old.items (take_at flow.now.takes.items by).taker }
    ensures reached { OnOk result (AreReached steps.now flow.now reached.new.items places.new) }
    ensures on { OnOk result (GoesOn reached.old.items reached.new.items) }
    ensures there { OnOk result (HasReached reached.new.items (take_at flow.now.takes.items by).taker) }
{
    let take = flow.takes[by];
    let room = reached[from].room.min(take.amount);
    let place = reached.len();
    reached.push(Reached {
        step: take.taker,
        from,
        by,
        room,
    })?;
    set_place(places, take.taker, place);
    Ok(())
}

/// Reaches all steps that take from a payer in the past of the one at place `from`.
///
/// # Errors
/// An allocation was refused.
pub(crate) fn reach_takers(
    steps: &[Step<'_>],
    flow: &Flow,
    reached: &mut Vec<Reached>,
    places: &mut [usize],
    from: usize,
    payer: usize,
) -> Result<(), AllocError>
    requires flow { IsFlow steps.now flow.now 0 0 }
    requires reached { AreReached steps.now flow.now reached.old.items places.old }
    requires there { payer < length steps.now }
    requires from { from < length reached.old.items }
    requires past { IsPast steps.now payer (reached_at reached.old.items from).step }
    requires full { slice_index flow.now.left.items payer ≡ 0 }
    ensures reached { OnOk result (AreReached steps.now flow.now reached.new.items places.new) }
    ensures on { OnOk result (GoesOn reached.old.items reached.new.items) }
    ensures looked { OnOk result (IsLookedAt flow.now reached.new.items payer) }
{
    let mut at = flow.last[payer];
    while at > 0 {
        let by = at - 1;
        let take = flow.takes[by];
        if !is_reached(reached, places, take.taker) {
            reach(steps, flow, reached, places, from, by)?;
        }
        at = take.before;
    }
    Ok(())
}
