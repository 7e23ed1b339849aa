//! For each event of a run, whatever its length, how many kept events of each process are it or happened before it.
//!
//! The events are put into an order in which each comes after those that happened before it, as for their clocks. In
//! place of how many events of a process an event knows of, its row has how many of these are kept.
ghost use Rattle.def_format.specs.Limits.{event_limit};
ghost use Rattle.def_model.specs.Cuts.{Includes, one_more};
ghost use Rattle.def_model.specs.Events.{event_count};
ghost use Rattle.def_model.specs.Messages.{IsMessageList};
ghost use Rattle.def_orders.specs.Orders.{count_up_to};
ghost use Rattle.judge_orders.specs.Lists.{lists_view};
ghost use Rattle.judge_orders.specs.RankTables.{AreEventNumbers, HasRank, HasRanks, IsRankTable, IsWithNumber};
ghost use Rattle.pd_clock.specs.Orders.{CanGo, HasRows, IsEmptyOrder, LeavesStuck, count_of, next_of};
ghost use Rattle.pd_match.specs.Views.{place_view};
ghost use Rattle.read_traces.specs.Views.{computation_view};
ghost use Rattle.std.specs.Prelude.{◌≡◌, ◌+◌, ◌-◌, ◌<◌, ◌≤◌, ℕ, AllPairs, IfOk, IfSome, length, option_map, slice_index};

use super::ranks::count_with;
use pd_clock::next_that_can_go;
use pd_match::{Matched, Place};
use read_traces::Trace;
use std::alloc::{AllocError, Global};

/// How many of the first events of each process stand in the order, and what these know of.
#[derive(Drop)]
pub(crate) struct RankTable {
    pub(crate) done: Vec<u64>,
    /// For each process a row for each of these events, one after another: for each process how many of its kept
    /// events are the event or happened before it.
    pub(crate) rows: Vec<Vec<u16>>,
}

/// The table of no event, with room for the rows of all events of these traces.
fn no_ranks(alloc: Global, traces: &[Trace]) -> Result<RankTable, AllocError>
    ensures { IfOk result (λ table. IsEmptyOrder (length traces.now) table.done.items table.rows.items) }
{
    let done = vec![in alloc; 0; traces.len()]?;
    let mut rows = Vec::with_capacity(alloc, traces.len())?;
    for process in traces {
        let room = process.events.len().saturating_mul(traces.len());
        rows.push(Vec::with_capacity(alloc, room)?)?;
    }
    Ok(RankTable { done, rows })
}

/// How many kept events of process `q` an event that stands in the order knows of; 0 for no event.
#[inline(always)]
fn rank_in(table: &RankTable, event: Option<Place>, q: usize) -> u16
    requires rows { HasRows table.now.done.items table.now.rows.items }
    requires within { q < length table.now.done.items }
    requires there { IfSome event (λ e. Includes table.now.done.items (place_view e)) }
    ensures { result ≡ count_of (length table.now.done.items) table.now.rows.items (option_map place_view event) q }
{
    match event {
        Some(e) => table.rows[e.process][(e.number - 1) as usize * table.done.len() + q],
        None => 0,
    }
}

/// The place of the event of process `p` with this number; none if the number is 0.
fn with_number(p: usize, number: u64) -> Option<Place>
    ensures { IsWithNumber p number (option_map place_view result) }
{
    if number == 0 {
        None
    } else {
        Some(Place { process: p, number })
    }
}

/// The number of the next event of process `p`, which has one.
pub(crate) fn next_number(traces: &[Trace], done: &[u64], p: usize) -> u64
    requires within { p < length traces.now }
    requires one_each { length done.now ≡ length traces.now }
    requires there { slice_index done.now p < event_count (computation_view traces.now) p }
    ensures { result ≡ slice_index done.now p + 1 }
{
    done[p].min(traces[p].events.len() as u64 - 1) + 1
}

/// How many of these numbers, which ascend, are at most `number`, if this many are below it.
fn own_rank(numbers: &[u64], number: u64, past: u16) -> u16
    requires ascend { AllPairs (λ (k m : ℕ). k < m) numbers.now }
    requires few { length numbers.now ≤ event_limit }
    requires some { 1 ≤ number }
    requires past { past ≡ count_up_to numbers.now (number - 1) }
    ensures { result ≡ count_up_to numbers.now number }
{
    count_with(numbers, number, past as usize) as u16
}

/// Writes into the row what the next event of process `p`, which can go, knows of.
fn next_row(
    traces: &[Trace],
    matched: &Matched,
    numbers: &[Vec<u64>],
    table: &RankTable,
    p: usize,
    row: &mut [u16],
)
    requires table { IsRankTable (computation_view traces.now) matched.now (lists_view numbers.now)
        table.now.done.items table.now.rows.items }
    requires goes { CanGo (computation_view traces.now) table.now.done.items p }
    requires room { length row.old ≡ length numbers.now }
    ensures room { length row.new ≡ length numbers.now }
    ensures ranks { (q : ℕ) → q < length (computation_view traces.now)
        → HasRank (computation_view traces.now) (lists_view numbers.now) (next_of table.now.done.items p) q
        (slice_index row.new q) }
{
    let number = next_number(traces, &table.done, p);
    let previous = with_number(p, number - 1);
    let send = matched.sender(Place { process: p, number });
    for q in 0..numbers.len() {
        let past = rank_in(table, previous, q);
        let sent = rank_in(table, send, q);
        row[q] = past.max(sent);
    }
    row[p] = own_rank(&numbers[p], number, rank_in(table, previous, p));
}

/// Puts the next event of process `p`, which can go, after the others. What it knows of is first written into the row.
fn add(
    traces: &[Trace],
    matched: &Matched,
    numbers: &[Vec<u64>],
    table: &mut RankTable,
    p: usize,
    row: &mut [u16],
) -> Result<(), AllocError>
    requires table { IsRankTable (computation_view traces.now) matched.now (lists_view numbers.now)
        table.old.done.items table.old.rows.items }
    requires goes { CanGo (computation_view traces.now) table.old.done.items p }
    requires room { length row.old ≡ length numbers.now }
    ensures room { length row.new ≡ length numbers.now }
    ensures done { IfOk result (λ _. table.new.done.items ≡ one_more table.old.done.items p) }
    ensures ranks { IfOk result (λ _. HasRanks (computation_view traces.now) (lists_view numbers.now)
        table.new.done.items table.new.rows.items) }
{
    next_row(traces, matched, numbers, table, p, row);
    table.rows[p].extend_from_slice(row)?;
    let number = next_number(traces, &table.done, p);
    table.done[p] = number;
    Ok(())
}

/// Puts as many events as can be into an order in which each comes after those that happened before it, with what each
/// knows of: a list for each process has the numbers of its kept events. Those that are left are on a causal cycle or
/// after one.
///
/// It takes time for the events times the processes, and two bytes of memory for each.
///
/// # Errors
/// An allocation was refused.
pub(crate) fn ranks_in_order(
    alloc: Global,
    traces: &[Trace],
    matched: &Matched,
    numbers: &[Vec<u64>],
) -> Result<RankTable, AllocError>
    requires messages { IsMessageList (computation_view traces.now) matched.now }
    requires numbers { AreEventNumbers (computation_view traces.now) (lists_view numbers.now) }
    ensures stuck { IfOk result (λ table. LeavesStuck (computation_view traces.now) table.done.items) }
    ensures ranks { IfOk result (λ table. HasRanks (computation_view traces.now) (lists_view numbers.now)
        table.done.items table.rows.items) }
{
    let mut table = no_ranks(alloc, traces)?;
    let mut row = vec![in alloc; 0; numbers.len()]?;
    let mut last = 0;
    while let Some(p) = next_that_can_go(traces, matched, &table.done, last) {
        add(traces, matched, numbers, &mut table, p, &mut row)?;
        last = p;
    }
    Ok(table)
}
