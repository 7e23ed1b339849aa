//! The greatest sum of rows right before and right after each event.
ghost use Rattle.def_format.specs.Limits.{process_limit};
ghost use Rattle.def_model.specs.Events.{event_count};
ghost use Rattle.wide_gates.specs.Boxes.{AreBoxes, HaveBoxes, IsBox};
ghost use Rattle.wide_gates.specs.Greatest.{AreBoxSums, AreMost, IsMostUpTo};
ghost use Rattle.wide_gates.specs.Ranges.{InRanges};
ghost use Rattle.wide_gates.specs.Spots.{AreThere, own_count};
ghost use Rattle.wide_gates.specs.Tables.{IsTable};
ghost use Rattle.wide_slice.specs.Values.{AreValues, number_at, value_limit};
ghost use Rattle.std.specs.Global.{Global};
ghost use Rattle.std.specs.Prelude.{◌≡◌, ◌+◌, ◌*◌, ◌<◌, ◌≤◌, ◌+ℤ◌, ◌-ℤ◌, IfOk, Vec, ℤ, length, slice_index_or, unsigned_abs};

use super::boxes::Boxes;
use super::range::Range;
use super::spot::{Spot, own};
use super::table::{Table, number};
use pd_clock::Computation;
use std::alloc::{AllocError, Global};

/// The sum with a number more.
fn with_more(sum: i128, number: i128) -> i128
    requires small { unsigned_abs sum ≤ 15 * value_limit }
    requires number { unsigned_abs number ≤ value_limit }
    ensures { result ≡ sum +ℤ number }
{
    sum + number
}

/// The sum with a number in place of another one.
fn with_other(sum: i128, old: i128, new: i128) -> i128
    requires small { unsigned_abs sum ≤ 16 * value_limit }
    requires old { unsigned_abs old ≤ value_limit }
    requires new { unsigned_abs new ≤ value_limit }
    ensures { result ≡ sum -ℤ old +ℤ new }
{
    sum - old + new
}

/// The greatest sum over the counts of a box, with process `q` added to the processes before it.
fn box_more(
    computation: &Computation<'_>,
    ranges: &[Range],
    values: &[Vec<i128>],
    q: usize,
    table: &Table,
    sum: i128,
) -> i128
    requires ranges { IsBox computation.now.events ranges.now }
    requires values { AreValues computation.now.events values.now }
    requires within { q < length values.now }
    requires table { (row : Vec ℤ Global) → IsTable (slice_index_or values.now q row).items
        (event_count computation.now.events q) table.now }
    requires before { IsMostUpTo values.now (InRanges ranges.now) q sum }
    ensures { IsMostUpTo values.now (InRanges ranges.now) (q + 1) result }
{
    computation.limits();
    let range = ranges[q];
    let row = values[q].as_slice();
    let number = table.greatest(
        row,
        computation.events(q),
        range.low as u64,
        range.high as u64,
    );
    with_more(sum, number)
}

/// The sums of the boxes, with process `q` added to the processes before it.
fn with_row(
    alloc: Global,
    computation: &Computation<'_>,
    boxes: &[Vec<Range>],
    values: &[Vec<i128>],
    q: usize,
    sums: &[i128],
) -> Result<Vec<i128>, AllocError>
    requires boxes { AreBoxes computation.now.events boxes.now }
    requires values { AreValues computation.now.events values.now }
    requires within { q < length values.now }
    requires sums { AreBoxSums boxes.now values.now q sums.now }
    ensures { IfOk result (λ made. AreBoxSums boxes.now values.now (q + 1) made.items) }
{
    computation.limits();
    let row = values[q].as_slice();
    let table = Table::new(alloc, row, computation.events(q))?;
    let mut made = Vec::with_capacity(alloc, boxes.len())?;
    for i in 0..boxes.len() {
        made.push(box_more(computation, &boxes[i], values, q, &table, sums[i]))?;
    }
    Ok(made)
}

/// The greatest sum over the counts of each box. One table of a row is kept at a time.
fn box_sums(
    alloc: Global,
    computation: &Computation<'_>,
    boxes: &[Vec<Range>],
    values: &[Vec<i128>],
) -> Result<Vec<i128>, AllocError>
    requires boxes { AreBoxes computation.now.events boxes.now }
    requires values { AreValues computation.now.events values.now }
    ensures { IfOk result (λ sums. AreBoxSums boxes.now values.now (length values.now) sums.items) }
{
    let mut sums = vec![in alloc; 0; boxes.len()]?;
    for q in 0..values.len() {
        sums = with_row(alloc, computation, boxes, values, q, &sums)?;
    }
    Ok(sums)
}

/// The sum of a box, with what the row of the spot's process adds there in place of what it adds at 0.
fn sum_with_own(row: &[i128], spot: Spot, sum: i128) -> i128
    requires small { unsigned_abs sum ≤ 16 * value_limit }
    requires none { unsigned_abs (number_at row.now 0) ≤ value_limit }
    requires own { unsigned_abs (number_at row.now (own_count spot)) ≤ value_limit }
    ensures { result ≡ sum -ℤ number_at row.now 0 +ℤ number_at row.now (own_count spot) }
{
    with_other(sum, number(row, 0), number(row, own(spot)))
}

/// The greatest sum of these rows, each at the count of its process, over the counts at each spot.
///
/// # Errors
/// An allocation was refused.
pub(crate) fn greatest_sums(
    alloc: Global,
    computation: &Computation<'_>,
    spots: &[Spot],
    boxes: &Boxes,
    values: &[Vec<i128>],
) -> Result<Vec<i128>, AllocError>
    requires spots { AreThere computation.now.events spots.now }
    requires boxes { HaveBoxes computation.now.events spots.now (length spots.now) boxes.now.boxes.items
        boxes.now.numbers.items }
    requires values { AreValues computation.now.events values.now }
    ensures { IfOk result (λ sums. AreMost computation.now.events spots.now values.now sums.items) }
{
    computation.limits();
    let of_boxes = box_sums(alloc, computation, &boxes.boxes, values)?;
    let mut sums = Vec::with_capacity(alloc, spots.len())?;
    for k in 0..spots.len() {
        let sum = of_boxes[boxes.numbers[k]];
        let spot = spots[k];
        let row = values[spot.place.process].as_slice();
        sums.push(sum_with_own(row, spot, sum))?;
    }
    Ok(sums)
}
