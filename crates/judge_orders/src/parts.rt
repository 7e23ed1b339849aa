//! The order of some processes of a run.
ghost use Rattle.def_model.specs.Predicates.{Recorded};
ghost use Rattle.def_orders.specs.Orders.{IsOrderOf};
ghost use Rattle.def_orders.specs.Selections.{AreParts, at_places};
ghost use Rattle.judge_orders.specs.Lists.{lists_view};
ghost use Rattle.judge_orders.specs.OrderViews.{named_view, process_view, processes_view};
ghost use Rattle.judge_orders.specs.PartCounts.{AreCountsAt, ArePartsBy, IsPartBy};
ghost use Rattle.std.specs.Prelude.{◌≡◌, ◌++◌, ◌<◌, ◌≤◌, ℕ, [], All, AllPairs, Contains, IfOk, length, map, slice_index_or};

use super::order::{Order, ProcessOrder};
use std::alloc::{AllocError, Global};

/// The places of the lists that aren't empty, counted from 0.
fn places_of_some(alloc: Global, lists: &[Vec<usize>]) -> Result<Vec<usize>, AllocError>
    ensures ascend { IfOk result (λ places. AllPairs (λ (p q : ℕ). p < q) places.items) }
    ensures there { IfOk result (λ places. All (λ p. p < length (lists_view lists.now)) places.items) }
    ensures others { IfOk result (λ places. (p : ℕ) → p < length (lists_view lists.now)
        → (¬ Contains places.items p) → slice_index_or (lists_view lists.now) p [] ≡ []) }
{
    let mut places = Vec::with_capacity(alloc, lists.len())?;
    for p in 0..lists.len() {
        if !lists[p].is_empty() {
            places.push(p)?;
        }
    }
    Ok(places)
}

/// The processes of which variables are seen, counted from 0, or the first one if there is none.
///
/// It takes time for the processes.
///
/// # Errors
/// An allocation was refused.
pub fn seen_places(alloc: Global, order: &Order) -> Result<Vec<usize>, AllocError>
    ensures some { IfOk result (λ places. 1 ≤ length places.items) }
    ensures ascend { IfOk result (λ places. AllPairs (λ (p q : ℕ). p < q) places.items) }
    ensures there { IfOk result (λ places. 1 ≤ length (named_view order.now)
        → All (λ p. p < length (named_view order.now)) places.items) }
    ensures unseen { IfOk result (λ places. (p : ℕ) → p < length (named_view order.now) → (¬ Contains places.items p)
        → slice_index_or (named_view order.now) p [] ≡ []) }
{
    let mut places = places_of_some(alloc, &order.named)?;
    if places.is_empty() {
        places.push(0)?;
    }
    Ok(places)
}

/// The lists at these places.
fn lists_at(
    alloc: Global,
    lists: &[Vec<usize>],
    places: &[usize],
) -> Result<Vec<Vec<usize>>, AllocError>
    requires { All (λ p. p < length lists.now) places.now }
    ensures { IfOk result (λ found. lists_view found.items ≡ at_places places.now (lists_view lists.now) []) }
{
    let mut found = Vec::with_capacity(alloc, places.len())?;
    for &p in places {
        found.push(lists[p].to_vec(alloc)?)?;
    }
    Ok(found)
}

/// Adds the counts at these places of a row.
#[inline(always)]
fn push_counts(row: &[u16], places: &[usize], counts: &mut Vec<u16>) -> Result<(), AllocError>
    requires { All (λ p. p < length row.now) places.now }
    ensures { IfOk result (λ _. counts.new.items ≡ counts.old.items ++ at_places places.now row.now 0) }
{
    for &p in places {
        counts.push(row[p])?;
    }
    Ok(())
}

/// The counts at these places of each row of this width, one row after another.
fn counts_at(
    alloc: Global,
    known: &[u16],
    width: usize,
    places: &[usize],
) -> Result<Vec<u16>, AllocError>
    requires some { 0 < width }
    requires there { All (λ p. p < width) places.now }
    ensures { IfOk result (λ counts. AreCountsAt width places.now known.now counts.items) }
{
    let rows = known.len() / width;
    let mut counts = Vec::with_capacity(alloc, rows.saturating_mul(places.len()))?;
    for row in known.chunks_exact(width) {
        push_counts(row, places, &mut counts)?;
    }
    Ok(counts)
}

/// What is seen of a process if of each row of this width only the counts at these places are.
fn process_part(
    alloc: Global,
    process: &ProcessOrder,
    width: usize,
    places: &[usize],
) -> Result<ProcessOrder, AllocError>
    requires some { 0 < width }
    requires there { All (λ p. p < width) places.now }
    ensures { IfOk result (λ part. IsPartBy width places.now (process_view process.now) (process_view part)) }
{
    let values = process.values.to_vec(alloc)?;
    let known = counts_at(alloc, &process.known, width, places)?;
    Ok(ProcessOrder { values, known })
}

/// What is seen of the processes at these places if of each row of this width only the counts at these places are. A
/// place at which there is no process is passed over.
fn process_parts(
    alloc: Global,
    processes: &[ProcessOrder],
    width: usize,
    places: &[usize],
) -> Result<Vec<ProcessOrder>, AllocError>
    requires { All (λ p. p < width) places.now }
    ensures one_each { IfOk result (λ parts. length processes.now ≡ width
        → length parts.items ≡ length places.now) }
    ensures each { IfOk result (λ parts. length processes.now ≡ width
        → ArePartsBy width places.now (map process_view processes.now) (map process_view parts.items)
        (length places.now)) }
{
    let mut parts = Vec::with_capacity(alloc, places.len())?;
    for &p in places {
        if let Some(process) = processes.get(p) {
            parts.push(process_part(alloc, process, width, places)?)?;
        }
    }
    Ok(parts)
}

/// What an order says of the processes at these places alone, in their order.
///
/// It takes time for the kept events of these processes, times the number of places, and for their values.
///
/// # Errors
/// An allocation was refused.
pub fn part_of(alloc: Global, order: &Order, places: &[usize]) -> Result<Order, AllocError>
    requires { All (λ p. p < length (named_view order.now)) places.now }
    ensures named { IfOk result (λ part. named_view part ≡ at_places places.now (named_view order.now) []) }
    ensures parts { IfOk result (λ part. (r : Recorded)
        → IsOrderOf r (named_view order.now) (processes_view order.now)
        → AreParts places.now (processes_view order.now) (processes_view part)) }
{
    let named = lists_at(alloc, &order.named, places)?;
    let processes = process_parts(alloc, &order.processes, order.named.len(), places)?;
    Ok(Order { named, processes })
}
