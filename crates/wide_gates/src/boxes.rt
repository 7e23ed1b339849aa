//! The counts that the processes may have around each event: a range of each other process.
//!
//! Events of a process that follow each other have the same ranges unless a message leaves or reaches one of them, and
//! then they share a box. So there are few boxes if there are few messages.
ghost use Rattle.wide_gates.specs.Boxes.{HasBox, HaveBoxes, IsLastBox, IsMoreBoxes};
ghost use Rattle.wide_gates.specs.Spots.{AreThere, event_of};
ghost use Rattle.wide_gates.specs.declared.spot.Spot.{Spot};
ghost use Rattle.def_model.specs.Events.{IsEvent};
ghost use Rattle.std.specs.Prelude.{◌≡◌, ◌-◌, ◌<◌, ◌≤◌, IfOk, OnOk, IsTrue, length, slice_index_or};

use super::high::start_of;
use super::range::{Range, keeps_range, range_at};
use super::spot::Spot;
use pd_clock::Computation;
use std::alloc::{AllocError, Global};

/// A box is a range of counts of each process. Of the process of the spots that share it, it is 0 alone.
#[derive(Drop)]
pub(crate) struct Boxes {
    pub(crate) boxes: Vec<Vec<Range>>,
    /// Which box each spot has.
    pub(crate) numbers: Vec<usize>,
}

/// Whether the event of a spot is that of another, or a later one of its process.
fn is_later(last: Spot, spot: Spot) -> bool
    ensures { IsTrue result → (last.place.process ≡ spot.place.process) × (last.place.number ≤ spot.place.number) }
{
    last.place.process == spot.place.process && last.place.number <= spot.place.number
}

/// Whether a spot has the box of the one before.
fn is_in_box(computation: &Computation<'_>, last: Spot, spot: Spot, ranges: &[Range]) -> bool
    requires last { IsEvent computation.now.events (event_of last) }
    requires event { IsEvent computation.now.events (event_of spot) }
    requires ranges { HasBox computation.now.events last ranges.now }
    ensures { IsTrue result → HasBox computation.now.events spot ranges.now }
{
    if !is_later(last, spot) {
        return false;
    }
    if last.place.number == spot.place.number {
        return true;
    }
    for q in 0..ranges.len() {
        if !keeps_range(computation, last, spot, q, ranges[q]) {
            return false;
        }
    }
    true
}

/// Whether spot `k` has the last box, which the spot before it has.
fn is_in_last(computation: &Computation<'_>, spots: &[Spot], k: usize, boxes: &[Vec<Range>]) -> bool
    requires spots { AreThere computation.now.events spots.now }
    requires there { k < length spots.now }
    requires last { 0 < k → (d : Spot)
        → IsLastBox computation.now.events (slice_index_or spots.now (k - 1) d) boxes.now }
    ensures { IsTrue result → (d : Spot) → IsLastBox computation.now.events (slice_index_or spots.now k d) boxes.now }
{
    k > 0 && is_in_box(computation, spots[k - 1], spots[k], &boxes[boxes.len() - 1])
}

/// The box of a spot. The search for the end of each range begins at the end of that in the box of another spot.
fn box_after(
    alloc: Global,
    computation: &Computation<'_>,
    last: Spot,
    spot: Spot,
    ranges: &[Range],
) -> Result<Vec<Range>, AllocError>
    requires last { IsEvent computation.now.events (event_of last) }
    requires event { IsEvent computation.now.events (event_of spot) }
    requires ranges { HasBox computation.now.events last ranges.now }
    ensures { IfOk result (λ made. HasBox computation.now.events spot made.items) }
{
    let mut made = Vec::with_capacity(alloc, ranges.len())?;
    for q in 0..ranges.len() {
        let start = start_of(
            computation,
            last.place,
            spot.place,
            q,
            ranges[q].high as u64,
        );
        made.push(range_at(computation, spot, q, start))?;
    }
    Ok(made)
}

/// The box of a spot.
fn box_of(
    alloc: Global,
    computation: &Computation<'_>,
    spot: Spot,
) -> Result<Vec<Range>, AllocError>
    requires event { IsEvent computation.now.events (event_of spot) }
    ensures { IfOk result (λ made. HasBox computation.now.events spot made.items) }
{
    let mut made = Vec::with_capacity(alloc, computation.processes())?;
    for q in 0..computation.processes() {
        made.push(range_at(computation, spot, q, 0))?;
    }
    Ok(made)
}

/// The box of spot `k`. The spot before it has the last box.
fn box_at(
    alloc: Global,
    computation: &Computation<'_>,
    spots: &[Spot],
    k: usize,
    boxes: &[Vec<Range>],
) -> Result<Vec<Range>, AllocError>
    requires spots { AreThere computation.now.events spots.now }
    requires there { k < length spots.now }
    requires last { 0 < k → (d : Spot)
        → IsLastBox computation.now.events (slice_index_or spots.now (k - 1) d) boxes.now }
    ensures { IfOk result (λ made. (d : Spot)
        → HasBox computation.now.events (slice_index_or spots.now k d) made.items) }
{
    if k == 0 {
        return Ok(box_of(alloc, computation, spots[k])?);
    }
    Ok(box_after(
        alloc,
        computation,
        spots[k - 1],
        spots[k],
        &boxes[boxes.len() - 1],
    )?)
}

/// Makes the last box that of spot `k`.
fn add_box(
    alloc: Global,
    computation: &Computation<'_>,
    spots: &[Spot],
    k: usize,
    boxes: &mut Vec<Vec<Range>>,
) -> Result<(), AllocError>
    requires spots { AreThere computation.now.events spots.now }
    requires there { k < length spots.now }
    requires last { 0 < k → (d : Spot)
        → IsLastBox computation.now.events (slice_index_or spots.now (k - 1) d) boxes.old.items }
    ensures last { OnOk result ((d : Spot)
        → IsLastBox computation.now.events (slice_index_or spots.now k d) boxes.new.items) }
    ensures more { OnOk result (IsMoreBoxes computation.now.events boxes.old.items boxes.new.items) }
{
    if is_in_last(computation, spots, k, boxes) {
        return Ok(());
    }
    let made = box_at(alloc, computation, spots, k, boxes)?;
    boxes.push(made)?;
    Ok(())
}

/// The boxes of all spots.
///
/// # Errors
/// An allocation was refused.
pub(crate) fn all_boxes(
    alloc: Global,
    computation: &Computation<'_>,
    spots: &[Spot],
) -> Result<Boxes, AllocError>
    requires { AreThere computation.now.events spots.now }
    ensures { IfOk result (λ made. HaveBoxes computation.now.events spots.now (length spots.now) made.boxes.items
        made.numbers.items) }
{
    let mut boxes = Vec::new(alloc);
    let mut numbers = Vec::with_capacity(alloc, spots.len())?;
    for k in 0..spots.len() {
        add_box(alloc, computation, spots, k, &mut boxes)?;
        numbers.push(boxes.len() - 1)?;
    }
    Ok(Boxes { boxes, numbers })
}
