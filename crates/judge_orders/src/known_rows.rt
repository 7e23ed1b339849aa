//! How many kept events of each process the kept events of a run know of, whatever the length of the run.
ghost use Rattle.def_format.specs.Limits.{event_limit};
ghost use Rattle.def_model.specs.Events.{IsEvent, place};
ghost use Rattle.def_model.specs.Messages.{IsMessageList};
ghost use Rattle.def_model.specs.Order.{HasNoCycle, IsReportedCycle};
ghost use Rattle.def_model.specs.Predicates.{Initial};
ghost use Rattle.judge_orders.specs.KeptEvents.{AllAscend};
ghost use Rattle.judge_orders.specs.KnownRows.{AreKnownRows};
ghost use Rattle.judge_orders.specs.Lists.{lists_view};
ghost use Rattle.judge_orders.specs.RankTables.{HasRowsAt, row_at};
ghost use Rattle.pd_clock.specs.Orders.{LeavesStuck, cycle_view};
ghost use Rattle.read_traces.specs.Views.{computation_view};
ghost use Rattle.std.specs.Prelude.{◌≡◌, ◌+◌, ◌-◌, ◌*◌, ◌<◌, ◌≤◌, ℕ, [], All, IfErr, IfOk, IfSome, flat_map, length, slice_index_or};

use super::rank_table::{next_number, ranks_in_order};
use pd_clock::{BuildFault, next_that_can_go, reported_cycle};
use pd_match::Matched;
use read_traces::Trace;
use std::alloc::{AllocError, Global};

/// How many of the first events of each process stand in an order in which each comes after those that happened before
/// it, if as many are put into it as can be.
fn counts_in_order(
    alloc: Global,
    traces: &[Trace],
    matched: &Matched,
) -> Result<Vec<u64>, AllocError>
    requires messages { IsMessageList (computation_view traces.now) matched.now }
    ensures stuck { IfOk result (λ done. LeavesStuck (computation_view traces.now) done.items) }
{
    let mut done = vec![in alloc; 0; traces.len()]?;
    let mut last = 0;
    while let Some(p) = next_that_can_go(traces, matched, &done, last) {
        done[p] = next_number(traces, &done, p);
        last = p;
    }
    Ok(done)
}

/// Refuses a run in which some event happened before itself. `done` has for each process how many of its first events
/// are not stuck on a causal cycle or after one.
fn refuse_cycle(
    alloc: Global,
    traces: &[Trace],
    matched: &Matched,
    done: &[u64],
) -> Result<(), BuildFault>
    requires messages { IsMessageList (computation_view traces.now) matched.now }
    requires stuck { LeavesStuck (computation_view traces.now) done.now }
    ensures acyclic { IfOk result (λ _. HasNoCycle (computation_view traces.now)) }
    ensures cycle { IfErr result (λ fault.
        IfSome (cycle_view fault) (IsReportedCycle (computation_view traces.now))) }
{
    let cycle = reported_cycle(alloc, traces, matched, done)?;
    match cycle {
        Some(places) => Err(BuildFault::Cycle(places)),
        None => Ok(()),
    }
}

/// Looks whether some event of a run, whatever its length, happened before itself.
///
/// It takes time for the events, and memory for the processes alone.
///
/// # Errors
/// `Cycle` exactly where some event happened before itself, or `Memory`.
pub(crate) fn check_order(
    alloc: Global,
    traces: &[Trace],
    matched: &Matched,
) -> Result<(), BuildFault>
    requires messages { IsMessageList (computation_view traces.now) matched.now }
    ensures acyclic { IfOk result (λ _. HasNoCycle (computation_view traces.now)) }
    ensures cycle { IfErr result (λ fault.
        IfSome (cycle_view fault) (IsReportedCycle (computation_view traces.now))) }
{
    let done = counts_in_order(alloc, traces, matched)?;
    refuse_cycle(alloc, traces, matched, &done)
}

/// The row of the event with this number, of a process that has a row of this width for each of its events.
fn row_of(rows: &[u16], width: usize, number: u64) -> &[u16]
    requires some { 1 ≤ number }
    requires there { (number - 1) * width + width ≤ length rows.now }
    ensures { result.now ≡ row_at width rows.now number }
{
    let start = (number - 1) as usize * width;
    &rows[start..start + width]
}

/// The rows of the events with these numbers, one after another, of a process that has a row of this width for each of
/// its events.
fn rows_of(
    alloc: Global,
    rows: &[u16],
    width: usize,
    numbers: &[u64],
) -> Result<Vec<u16>, AllocError>
    requires { HasRowsAt width rows.now numbers.now }
    ensures { IfOk result (λ known. known.items ≡ flat_map (row_at width rows.now) numbers.now) }
{
    let mut known = Vec::with_capacity(alloc, numbers.len().saturating_mul(width))?;
    for &number in numbers {
        known.extend_from_slice(row_of(rows, width, number))?;
    }
    Ok(known)
}

/// For each process the rows of its events with these numbers, one after another.
fn all_rows_of(
    alloc: Global,
    rows: &[Vec<u16>],
    numbers: &[Vec<u64>],
) -> Result<Vec<Vec<u16>>, AllocError>
    requires one_each { length rows.now ≡ length numbers.now }
    requires there { (p : ℕ) → p < length numbers.now → HasRowsAt (length numbers.now)
        (slice_index_or (lists_view rows.now) p []) (slice_index_or (lists_view numbers.now) p []) }
    ensures one_each { IfOk result (λ known. length known.items ≡ length numbers.now) }
    ensures rows { IfOk result (λ known. (p : ℕ) → p < length numbers.now → slice_index_or (lists_view known.items) p []
        ≡ flat_map (row_at (length numbers.now) (slice_index_or (lists_view rows.now) p []))
        (slice_index_or (lists_view numbers.now) p [])) }
{
    let mut known = Vec::with_capacity(alloc, numbers.len())?;
    for p in 0..numbers.len() {
        known.push(rows_of(alloc, &rows[p], numbers.len(), &numbers[p])?)?;
    }
    Ok(known)
}

/// For each process, and each of its kept events, which have these numbers, how many kept events of each process are
/// the event or happened before it. The run may have any length.
///
/// It takes time for the events times the processes, and while it runs two bytes of memory for each; what it gives has
/// memory for the kept events alone.
///
/// # Errors
/// `Cycle` exactly where some event happened before itself, or `Memory`.
pub(crate) fn known_rows(
    alloc: Global,
    traces: &[Trace],
    matched: &Matched,
    numbers: &[Vec<u64>],
) -> Result<Vec<Vec<u16>>, BuildFault>
    requires messages { IsMessageList (computation_view traces.now) matched.now }
    requires one_each { length numbers.now ≡ length traces.now }
    requires ascend { AllAscend (lists_view numbers.now) }
    requires there { (p : ℕ) → p < length numbers.now
        → All (λ n. IsEvent (computation_view traces.now) (place p n)) (slice_index_or (lists_view numbers.now) p []) }
    requires few { (p : ℕ) → length (slice_index_or (lists_view numbers.now) p []) ≤ event_limit }
    ensures rows { IfOk result (λ known. (length known.items ≡ length traces.now)
        × ((initial : Initial) (p : ℕ) → p < length traces.now
        → AreKnownRows (record { initial = initial; events = computation_view traces.now }) (lists_view numbers.now) p
        (slice_index_or (lists_view known.items) p []))) }
    ensures acyclic { IfOk result (λ _. HasNoCycle (computation_view traces.now)) }
    ensures cycle { IfErr result (λ fault.
        IfSome (cycle_view fault) (IsReportedCycle (computation_view traces.now))) }
{
    let table = ranks_in_order(alloc, traces, matched, numbers)?;
    refuse_cycle(alloc, traces, matched, &table.done)?;
    let known = all_rows_of(alloc, &table.rows, numbers)?;
    Ok(known)
}
