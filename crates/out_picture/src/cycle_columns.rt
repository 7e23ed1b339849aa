//! The columns of a run in which there is a causal cycle.
ghost use Rattle.def_model.specs.Events.{event_count};
ghost use Rattle.out_picture.specs.CycleTables.{IsCycleTable};
ghost use Rattle.out_picture.specs.Cycles.{cycle_focus, cycle_row, kept_column, number_in, shift};
ghost use Rattle.out_picture.specs.Pictures.{widest};
ghost use Rattle.out_picture.specs.Tables.{column_at, places_view};
ghost use Rattle.read_traces.specs.Views.{computation_view};
ghost use Rattle.std.specs.Prelude.{◌≡◌, ◌+◌, IfOk};

use super::window::widest_column;
use pd_clock::Place;
use read_traces::Trace;
use std::alloc::{AllocError, Global};

/// The number of the cycle's event of a process, and if it has none, this other number.
pub(crate) fn number_in(otherwise: u64, cycle: &[Place], process: usize) -> u64
    ensures { result ≡ number_in otherwise (places_view cycle.now) process }
{
    for place in cycle {
        if place.process == process {
            return place.number;
        }
    }
    otherwise
}

/// The column in which the events of the cycle stand: the greatest of their numbers.
pub(crate) fn cycle_focus(cycle: &[Place]) -> u64
    ensures { result ≡ cycle_focus (places_view cycle.now) }
{
    let mut greatest: u64 = 0;
    for place in cycle {
        greatest = greatest.max(place.number);
    }
    greatest
}

/// How far the events of a process are moved to the right.
fn shift(cycle: &[Place], process: usize) -> u64
    ensures { result ≡ shift (places_view cycle.now) process }
{
    let focus = cycle_focus(cycle);
    focus.saturating_sub(number_in(focus, cycle, process))
}

/// A column as the table of columns keeps it.
pub(crate) fn kept_column(column: u64) -> u32
    ensures { result ≡ kept_column column }
{
    column.min(u64::from(u32::MAX)) as u32
}

/// The column of the event that stands this far from the first one, in a process that is moved this far.
fn moved_column(place: u64, shift: u64) -> u32
    ensures { result ≡ kept_column (place + 1 + shift) }
{
    kept_column(place.saturating_add(1).saturating_add(shift))
}

/// How many events a process has: none if there is no such process.
pub(crate) fn count_of(traces: &[Trace], process: usize) -> u64
    ensures { result ≡ event_count (computation_view traces.now) process }
{
    match traces.get(process) {
        Some(trace) => trace.events.len() as u64,
        None => 0,
    }
}

/// The columns of these many events of a process that is moved this far, after a 0 before its first event.
fn row(alloc: Global, shift: u64, count: u64) -> Result<Vec<u32>, AllocError>
    ensures { IfOk result (λ row. row.items ≡ cycle_row shift count) }
{
    let mut row = vec![in alloc; 0]?;
    for n in 0..count {
        row.push(moved_column(n, shift))?;
    }
    Ok(row)
}

/// The columns of the events of each process: each by its number, moved so that the events of the cycle stand in one
/// column.
///
/// # Errors
/// Out of memory.
pub(crate) fn cycle_columns(
    alloc: Global,
    traces: &[Trace],
    cycle: &[Place],
) -> Result<Vec<Vec<u32>>, AllocError>
    ensures { IfOk result (λ rows. IsCycleTable (computation_view traces.now) (places_view cycle.now) rows.items) }
{
    let mut rows = Vec::with_capacity(alloc, traces.len())?;
    for p in 0..traces.len() {
        rows.push(row(alloc, shift(cycle, p), count_of(traces, p))?)?;
    }
    Ok(rows)
}

/// The greatest column of all events.
pub(crate) fn cycle_widest(rows: &[Vec<u32>], traces: &[Trace], cycle: &[Place]) -> u32
    requires { IsCycleTable (computation_view traces.now) (places_view cycle.now) rows.now }
    ensures { result ≡ widest (column_at rows.now) (computation_view traces.now) }
{
    widest_column(rows)
}
