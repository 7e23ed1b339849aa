//! What is seen of a process.
ghost use Rattle.def_model.specs.Events.{IsEvent, event_count, place};
ghost use Rattle.def_orders.specs.Orders.{AreKept, IsSeenOf, values_after};
ghost use Rattle.judge_orders.specs.KeptEvents.{AllKept};
ghost use Rattle.judge_orders.specs.Lists.{lists_view};
ghost use Rattle.judge_orders.specs.OrderViews.{AllSeen, process_view};
ghost use Rattle.judge_orders.specs.Ranked.{AddsRow, AreRowsBy, HaveColumns};
ghost use Rattle.pd_match.specs.Views.{place_view};
ghost use Rattle.std.specs.Prelude.{◌≡◌, ◌<◌, ◌≤◌, ◌∷◌, ◌++◌, [], All, IfOk, flat_map, length, map, slice_index_or};

use super::kept::value_after;
use super::order::ProcessOrder;
use super::ranks::rank;
use pd_clock::Computation;
use pd_match::Place;
use std::alloc::{AllocError, Global};

/// Adds what these variables of process `p` are worth after the first `n` events of the process.
fn push_values(
    computation: &Computation<'_>,
    p: usize,
    n: u64,
    vars: &[usize],
    values: &mut Vec<i64>,
) -> Result<(), AllocError>
    requires within { p < length computation.now.events }
    requires there { n ≤ event_count computation.now.events p }
    ensures { IfOk result (λ _. values.new.items ≡ values.old.items ++ values_after computation.now p vars.now n) }
{
    for &var in vars {
        values.push(value_after(computation, p, n, var))?;
    }
    Ok(())
}

/// What these variables of process `p` are worth at the beginning, and after each of the events with these numbers.
fn values(
    alloc: Global,
    computation: &Computation<'_>,
    p: usize,
    vars: &[usize],
    numbers: &[u64],
) -> Result<Vec<i64>, AllocError>
    requires within { p < length computation.now.events }
    requires events { All (λ n. IsEvent computation.now.events (place p n)) numbers.now }
    ensures { IfOk result (λ values. values.items
        ≡ flat_map (values_after computation.now p vars.now) (0 ∷ numbers.now)) }
{
    let count = numbers.len().saturating_add(1);
    let mut values = Vec::with_capacity(alloc, count.saturating_mul(vars.len()))?;
    push_values(computation, p, 0, vars, &mut values)?;
    for &n in numbers {
        push_values(computation, p, n, vars, &mut values)?;
    }
    Ok(values)
}

/// Adds the row of an event: what the column of each process has at the event's clock.
fn push_row(
    computation: &Computation<'_>,
    event: Place,
    columns: &[Vec<u16>],
    known: &mut Vec<u16>,
) -> Result<(), AllocError>
    requires event { IsEvent computation.now.events (place_view event) }
    requires one_each { length columns.now ≡ length computation.now.events }
    ensures { IfOk result (λ _. AddsRow computation.now.events (lists_view columns.now) (place_view event)
        known.old.items known.new.items) }
{
    for q in 0..columns.len() {
        known.push(rank(&columns[q], computation.clock(event, q)))?;
    }
    Ok(())
}

/// The rows of the events of process `p` with these numbers, one after another.
fn rows(
    alloc: Global,
    computation: &Computation<'_>,
    p: usize,
    numbers: &[u64],
    columns: &[Vec<u16>],
) -> Result<Vec<u16>, AllocError>
    requires events { All (λ n. IsEvent computation.now.events (place p n)) numbers.now }
    requires one_each { length columns.now ≡ length computation.now.events }
    ensures { IfOk result (λ known. AreRowsBy computation.now.events (lists_view columns.now) p numbers.now
        known.items) }
{
    let mut known = Vec::with_capacity(alloc, numbers.len().saturating_mul(columns.len()))?;
    for &number in numbers {
        let event = Place { process: p, number };
        push_row(computation, event, columns, &mut known)?;
    }
    Ok(known)
}

/// What is seen of process `p` if these variables of it are, by the numbers of the kept events of each process and the
/// columns of their counts.
///
/// # Errors
/// An allocation was refused.
fn process_order(
    alloc: Global,
    computation: &Computation<'_>,
    p: usize,
    vars: &[usize],
    numbers: &[Vec<u64>],
    columns: &[Vec<u16>],
) -> Result<ProcessOrder, AllocError>
    requires within { p < length computation.now.events }
    requires all_kept { length numbers.now ≡ length computation.now.events }
    requires one_each { length columns.now ≡ length computation.now.events }
    requires kept { AreKept computation.now p vars.now (slice_index_or (lists_view numbers.now) p []) }
    requires columns { HaveColumns computation.now.events (lists_view numbers.now) (lists_view columns.now)
        (length computation.now.events) }
    ensures { IfOk result (λ order. IsSeenOf computation.now vars.now (lists_view numbers.now) p
        (process_view order)) }
{
    let values = values(alloc, computation, p, vars, &numbers[p])?;
    let known = rows(alloc, computation, p, &numbers[p], columns)?;
    Ok(ProcessOrder { values, known })
}

/// What is seen of each process if these variables are, by the numbers of the kept events of each process and the
/// columns of their counts.
///
/// It takes time and memory for the kept events of each process times its variables, and times the processes.
///
/// # Errors
/// An allocation was refused.
pub(crate) fn process_orders(
    alloc: Global,
    computation: &Computation<'_>,
    named: &[Vec<usize>],
    numbers: &[Vec<u64>],
    columns: &[Vec<u16>],
) -> Result<Vec<ProcessOrder>, AllocError>
    requires all_named { length named.now ≡ length computation.now.events }
    requires all_kept { length numbers.now ≡ length computation.now.events }
    requires one_each { length columns.now ≡ length computation.now.events }
    requires kept { AllKept computation.now (lists_view named.now) (lists_view numbers.now)
        (length computation.now.events) }
    requires columns { HaveColumns computation.now.events (lists_view numbers.now) (lists_view columns.now)
        (length computation.now.events) }
    ensures one_each { IfOk result (λ orders. length orders.items ≡ length computation.now.events) }
    ensures seen { IfOk result (λ orders. AllSeen computation.now (lists_view named.now) (lists_view numbers.now)
        (map process_view orders.items) (length computation.now.events)) }
{
    let mut orders = Vec::with_capacity(alloc, named.len())?;
    for p in 0..named.len() {
        orders.push(process_order(alloc, computation, p, &named[p], numbers, columns)?)?;
    }
    Ok(orders)
}
