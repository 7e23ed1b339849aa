//! The greatest number of events right before and right after each event.
ghost use Rattle.def_format.specs.Limits.{event_limit};
ghost use Rattle.wide_gates.specs.Boxes.{HaveBoxes};
ghost use Rattle.wide_gates.specs.Levels.{AreCounts, AreLevelNumbers, AreLevels, AreSame, IsCountRow};
ghost use Rattle.wide_gates.specs.Spots.{AreThere};
ghost use Rattle.wide_slice.specs.Values.{AreValues};
ghost use Rattle.std.specs.Prelude.{◌≤◌, IfOk, length};

use super::boxes::Boxes;
use super::greatest::greatest_sums;
use super::spot::Spot;
use pd_clock::Computation;
use std::alloc::{AllocError, Global};

/// A row that has each count up to `events` at that count.
fn count_row(alloc: Global, events: u64) -> Result<Vec<i128>, AllocError>
    requires { events ≤ event_limit }
    ensures { IfOk result (λ row. IsCountRow events row.items) }
{
    let mut row = Vec::new(alloc);
    for count in 0..events + 1 {
        row.push(count as i128)?;
    }
    Ok(row)
}

/// Such a row for each process, so that the sum at a cut is the number of its events.
fn count_rows(alloc: Global, computation: &Computation<'_>) -> Result<Vec<Vec<i128>>, AllocError>
    ensures values { IfOk result (λ rows. AreValues computation.now.events rows.items) }
    ensures counts { IfOk result (λ rows. AreCounts computation.now.events rows.items) }
{
    computation.limits();
    let mut rows = Vec::new(alloc);
    for process in 0..computation.processes() {
        let row = count_row(alloc, computation.events(process))?;
        rows.push(row)?;
    }
    Ok(rows)
}

/// The numbers, none of which is below 0.
fn naturals(alloc: Global, numbers: &[i128]) -> Result<Vec<u64>, AllocError>
    requires { AreLevelNumbers numbers.now }
    ensures { IfOk result (λ naturals. AreSame numbers.now naturals.items) }
{
    let mut naturals = Vec::with_capacity(alloc, numbers.len())?;
    for number in numbers {
        naturals.push(*number as u64)?;
    }
    Ok(naturals)
}

/// The greatest number of events that counts at each spot have.
///
/// # Errors
/// An allocation was refused.
pub(crate) fn levels_at(
    alloc: Global,
    computation: &Computation<'_>,
    spots: &[Spot],
    boxes: &Boxes,
) -> Result<Vec<u64>, AllocError>
    requires spots { AreThere computation.now.events spots.now }
    requires boxes { HaveBoxes computation.now.events spots.now (length spots.now) boxes.now.boxes.items
        boxes.now.numbers.items }
    ensures { IfOk result (λ levels. AreLevels computation.now.events spots.now levels.items) }
{
    computation.limits();
    computation.total();
    let rows = count_rows(alloc, computation)?;
    let sums = greatest_sums(alloc, computation, spots, boxes, &rows)?;
    let levels = naturals(alloc, &sums)?;
    Ok(levels)
}
