//! An order of the events in which each comes after those that happened before it.
ghost use Rattle.pd_clock.specs.Orders.{CanGo, HasClocks, HasRows, IsEmptyOrder, IsOrdered, LeavesStuck, Waits, count_of, next_of};
ghost use Rattle.read_traces.specs.Views.{computation_view};
ghost use Rattle.def_format.specs.Limits.{event_limit, process_limit};
ghost use Rattle.pd_match.specs.Views.{place_view};
ghost use Rattle.def_model.specs.Cuts.{Includes, one_more};
ghost use Rattle.def_model.specs.Events.{event_count};
ghost use Rattle.def_model.specs.Messages.{IsMessageList};
ghost use Rattle.def_model.specs.Order.{IsClock};
ghost use Rattle.std.specs.Prelude.{◌≡◌, ◌<◌, ◌≤◌, ℕ, IfNone, IfOk, IfSome, IsTrue, false, length, option_map, slice_index};

use def_format::PROCESS_LIMIT;
use pd_match::{Matched, Place};
use read_traces::Trace;
use std::alloc::{AllocError, Global};

/// How many of the first events of each process stand in the order, and the clocks of these.
#[derive(Drop)]
pub(crate) struct Order {
    pub(crate) done: Vec<u64>,
    pub(crate) clocks: Vec<Vec<u16>>,
}

/// The order of no event.
fn no_events(alloc: Global, processes: usize) -> Result<Order, AllocError>
    ensures { IfOk result (λ order. IsEmptyOrder processes order.done.items order.clocks.items) }
{
    let done = vec![in alloc; 0; processes]?;
    let mut clocks = Vec::with_capacity(alloc, processes)?;
    for _process in 0..processes {
        clocks.push(Vec::new(alloc))?;
    }
    Ok(Order { done, clocks })
}

/// Whether process `p` has a next event that can stand in the order: if it is a receipt, its send stands there.
fn can_go(traces: &[Trace], matched: &Matched, done: &[u64], p: usize) -> bool
    requires within { p < length traces.now }
    requires ordered { IsOrdered (computation_view traces.now) done.now }
    requires messages { IsMessageList (computation_view traces.now) matched.now }
    ensures goes { IsTrue result → CanGo (computation_view traces.now) done.now p }
    ensures waits { result ≡ false → Waits (computation_view traces.now) done.now p }
{
    if done[p] >= traces[p].events.len() as u64 {
        return false;
    }
    let next = Place {
        process: p,
        number: done[p] + 1,
    };
    match matched.sender(next) {
        Some(send) => send.number <= done[send.process],
        None => true,
    }
}

/// The first of the processes from `start` to below `end` whose next event can stand in the order.
fn first_that_can_go(
    traces: &[Trace],
    matched: &Matched,
    done: &[u64],
    start: usize,
    end: usize,
) -> Option<usize>
    requires within { end ≤ length traces.now }
    requires ordered { IsOrdered (computation_view traces.now) done.now }
    requires messages { IsMessageList (computation_view traces.now) matched.now }
    ensures found { IfSome result (λ p. CanGo (computation_view traces.now) done.now p) }
    ensures none { IfNone result ((p : ℕ) → start ≤ p → p < end → Waits (computation_view traces.now) done.now p) }
{
    for p in start..end {
        if can_go(traces, matched, done, p) {
            return Some(p);
        }
    }
    None
}

/// A process whose next event can stand in the order, if there is one: `last` if it can, so that a run of events of one
/// process is short work.
pub fn next_that_can_go(
    traces: &[Trace],
    matched: &Matched,
    done: &[u64],
    last: usize,
) -> Option<usize>
    requires within { last ≤ length traces.now }
    requires ordered { IsOrdered (computation_view traces.now) done.now }
    requires messages { IsMessageList (computation_view traces.now) matched.now }
    ensures found { IfSome result (λ p. CanGo (computation_view traces.now) done.now p) }
    ensures none { IfNone result ((p : ℕ) → Waits (computation_view traces.now) done.now p) }
{
    match first_that_can_go(traces, matched, done, last, traces.len()) {
        Some(p) => Some(p),
        None => first_that_can_go(traces, matched, done, 0, last),
    }
}

/// How many events of process `q` are in the clock of an event that stands in the order; 0 for no event.
fn count_in(order: &Order, event: Option<Place>, q: usize) -> u16
    requires rows { HasRows order.now.done.items order.now.clocks.items }
    requires within { q < length order.now.done.items }
    requires there { IfSome event (λ e. Includes order.now.done.items (place_view e)) }
    ensures { result ≡ count_of (length order.now.done.items) order.now.clocks.items (option_map place_view event) q }
{
    match event {
        Some(e) => order.clocks[e.process][(e.number - 1) as usize * order.done.len() + q],
        None => 0,
    }
}

/// Writes the clock of the next event of process `p`, which can stand in the order, into the first places of a row.
fn next_row(
    traces: &[Trace],
    matched: &Matched,
    order: &Order,
    p: usize,
    row: &mut [u16; PROCESS_LIMIT],
)
    requires few { length traces.now ≤ process_limit }
    requires short { (p : ℕ) → event_count (computation_view traces.now) p ≤ event_limit }
    requires messages { IsMessageList (computation_view traces.now) matched.now }
    requires ordered { IsOrdered (computation_view traces.now) order.now.done.items }
    requires clocks { HasClocks (computation_view traces.now) order.now.done.items order.now.clocks.items }
    requires goes { CanGo (computation_view traces.now) order.now.done.items p }
    ensures room { length row.new ≡ process_limit }
    ensures clock { (q : ℕ) → q < length traces.now
        → IsClock (computation_view traces.now) (next_of order.now.done.items p) q (slice_index row.new q) }
{
    let number = order.done[p];
    let previous = if number == 0 {
        None
    } else {
        Some(Place { process: p, number })
    };
    let send = matched.sender(Place {
        process: p,
        number: number + 1,
    });
    for q in 0..traces.len() {
        let past = count_in(order, previous, q);
        let sent = count_in(order, send, q);
        row[q] = past.max(sent);
    }
    row[p] = (number + 1) as u16;
}

/// Puts the next event of process `p`, which can go, after the others. Its clock is first written into the row.
fn add(
    traces: &[Trace],
    matched: &Matched,
    order: &mut Order,
    p: usize,
    row: &mut [u16; PROCESS_LIMIT],
) -> Result<(), AllocError>
    requires few { length traces.now ≤ process_limit }
    requires short { (p : ℕ) → event_count (computation_view traces.now) p ≤ event_limit }
    requires messages { IsMessageList (computation_view traces.now) matched.now }
    requires ordered { IsOrdered (computation_view traces.now) order.old.done.items }
    requires clocks { HasClocks (computation_view traces.now) order.old.done.items order.old.clocks.items }
    requires goes { CanGo (computation_view traces.now) order.old.done.items p }
    ensures done { IfOk result (λ _. order.new.done.items ≡ one_more order.old.done.items p) }
    ensures clocks { IfOk result (λ _. HasClocks (computation_view traces.now) order.new.done.items
        order.new.clocks.items) }
{
    next_row(traces, matched, order, p, row);
    order.clocks[p].extend_from_slice(&row[..traces.len()])?;
    order.done[p] += 1;
    Ok(())
}

/// Puts as many events as can be into an order in which each comes after those that happened before it. Those that are
/// left are on a causal cycle or after one.
///
/// It is a topological order (Kahn, Topological Sorting of Large Networks, 1962), and each event that it takes in gets
/// its vector clock (Fidge, Timestamps in Message-Passing Systems That Preserve the Partial Ordering, 1988; Mattern,
/// Virtual Time and Global States of Distributed Systems, 1989).
pub(crate) fn put_in_order(
    alloc: Global,
    traces: &[Trace],
    matched: &Matched,
) -> Result<Order, AllocError>
    requires few { length traces.now ≤ process_limit }
    requires short { (p : ℕ) → event_count (computation_view traces.now) p ≤ event_limit }
    requires messages { IsMessageList (computation_view traces.now) matched.now }
    ensures stuck { IfOk result (λ order. LeavesStuck (computation_view traces.now) order.done.items) }
    ensures clocks { IfOk result (λ order.
        HasClocks (computation_view traces.now) order.done.items order.clocks.items) }
{
    let mut order = no_events(alloc, traces.len())?;
    let mut row = [0; PROCESS_LIMIT];
    let mut last = 0;
    while let Some(p) = next_that_can_go(traces, matched, &order.done, last) {
        add(traces, matched, &mut order, p, &mut row)?;
        last = p;
    }
    Ok(order)
}
