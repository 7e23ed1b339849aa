//! The receipts before the image of a kept event.
ghost use Rattle.judge_orders.specs.Lists.{lists_view};
ghost use Rattle.judge_reduced.specs.Planned.{AreListed, ComesThrough, GoesOn, HasReceived, IsKnown};
ghost use Rattle.judge_orders.specs.Ranked.{HaveColumns};
ghost use Rattle.std.specs.Prelude.{◌≡◌, ◌≢◌, ◌+◌, ◌<◌, ◌≤◌, [], IfOk, length, slice_index, slice_index_or, true};

use super::ids::id_of;
use judge_orders::rank;
use pd_clock::Computation;
use pd_match::Place;
use read_traces::{Events, Kind};
use std::alloc::{AllocError, Global};

/// The number of the kept event `i` of process `p`.
#[inline(always)]
pub(crate) fn number_at(numbers: &[Vec<u64>], p: usize, i: usize) -> u64
    requires process { p < length numbers.now }
    requires event { i < length (slice_index_or (lists_view numbers.now) p []) }
    ensures { result ≡ slice_index (slice_index_or (lists_view numbers.now) p []) i }
{
    numbers[p][i]
}

/// How many kept events process `p` has.
#[inline(always)]
pub(crate) fn kept_count(numbers: &[Vec<u64>], p: usize) -> usize
    requires { p < length numbers.now }
    ensures { result ≡ length (slice_index_or (lists_view numbers.now) p []) }
{
    numbers[p].len()
}

/// How many kept events of process `q` happened before the kept event `i` of process `p`, which is another one.
#[inline(always)]
fn known_count(
    computation: &Computation<'_>,
    numbers: &[Vec<u64>],
    columns: &[Vec<u16>],
    p: usize,
    i: usize,
    q: usize,
) -> u16
    requires listed { AreListed computation.now.events (lists_view numbers.now) }
    requires all_listed { length numbers.now ≡ length computation.now.events }
    requires one_each { length columns.now ≡ length computation.now.events }
    requires columns { HaveColumns computation.now.events (lists_view numbers.now) (lists_view columns.now)
        (length computation.now.events) }
    requires process { p < length computation.now.events }
    requires event { i < length (slice_index_or (lists_view numbers.now) p []) }
    requires other { q < length computation.now.events }
    ensures { q ≢ p → IsKnown computation.now (lists_view numbers.now) p i q result }
{
    let event = Place {
        process: p,
        number: number_at(numbers, p, i),
    };
    rank(&columns[q], computation.clock(event, q))
}

/// Whether the last of the first `known` kept events of process `q` happened before a kept event of process `s` that
/// happened before the kept event `i` of process `p`. The three processes differ.
fn leads_through(
    computation: &Computation<'_>,
    numbers: &[Vec<u64>],
    columns: &[Vec<u16>],
    p: usize,
    i: usize,
    q: usize,
    known: u16,
    s: usize,
) -> bool
    requires listed { AreListed computation.now.events (lists_view numbers.now) }
    requires all_listed { length numbers.now ≡ length computation.now.events }
    requires one_each { length columns.now ≡ length computation.now.events }
    requires columns { HaveColumns computation.now.events (lists_view numbers.now) (lists_view columns.now)
        (length computation.now.events) }
    requires process { p < length computation.now.events }
    requires event { i < length (slice_index_or (lists_view numbers.now) p []) }
    requires other { q < length computation.now.events }
    requires between { s < length computation.now.events }
    requires first { q ≢ s }
    requires second { s ≢ p }
    ensures { result ≡ true → ComesThrough computation.now (lists_view numbers.now) p i q known }
{
    let count = known_count(computation, numbers, columns, p, i, s);
    if count == 0 {
        return false;
    }
    known <= known_count(computation, numbers, columns, s, count as usize - 1, q)
}

/// Whether the order of the last of the first `known` kept events of process `q` and of the kept event `i` of process
/// `p` comes through a kept event of a third process.
///
/// It takes time for the processes.
fn comes_through(
    computation: &Computation<'_>,
    numbers: &[Vec<u64>],
    columns: &[Vec<u16>],
    p: usize,
    i: usize,
    q: usize,
    known: u16,
) -> bool
    requires listed { AreListed computation.now.events (lists_view numbers.now) }
    requires all_listed { length numbers.now ≡ length computation.now.events }
    requires one_each { length columns.now ≡ length computation.now.events }
    requires columns { HaveColumns computation.now.events (lists_view numbers.now) (lists_view columns.now)
        (length computation.now.events) }
    requires process { p < length computation.now.events }
    requires event { i < length (slice_index_or (lists_view numbers.now) p []) }
    requires other { q < length computation.now.events }
    ensures { result ≡ true → ComesThrough computation.now (lists_view numbers.now) p i q known }
{
    for s in 0..columns.len() {
        if q != s && s != p && leads_through(computation, numbers, columns, p, i, q, known, s) {
            return true;
        }
    }
    false
}

/// Receives the message of the last kept event of process `q` that is known now, of this many, unless it was received
/// before, or the order comes through another event.
#[inline(always)]
fn receive(
    alloc: Global,
    q: usize,
    known: u16,
    through: bool,
    last: &mut Vec<u16>,
    events: &mut Events,
) -> Result<(), AllocError>
    requires process { q ≤ 128 }
    requires there { q < length last.old.items }
    ensures { IfOk result (λ _. HasReceived q known through last.old.items last.new.items events.old events.new) }
{
    if known <= last[q] {
        return Ok(());
    }
    if through {
        last[q] = known;
        return Ok(());
    }
    let id = id_of(alloc, q, known as usize - 1)?;
    events.push_parts(Kind::Recv(&id), &[])?;
    last[q] = known;
    Ok(())
}

/// Adds a receipt for each latest kept event of another process that happened before the kept event `i` of process `p`,
/// unless its message was received before, or another kept event lies between: of each process `last` has how many of
/// its kept events are up to the last one whose message was received, or needn't be.
///
/// It takes time for the square of the number of processes.
///
/// # Errors
/// An allocation was refused.
pub(crate) fn push_receipts(
    alloc: Global,
    computation: &Computation<'_>,
    numbers: &[Vec<u64>],
    columns: &[Vec<u16>],
    p: usize,
    i: usize,
    last: &mut Vec<u16>,
    events: &mut Events,
) -> Result<(), AllocError>
    requires listed { AreListed computation.now.events (lists_view numbers.now) }
    requires all_listed { length numbers.now ≡ length computation.now.events }
    requires one_each { length columns.now ≡ length computation.now.events }
    requires columns { HaveColumns computation.now.events (lists_view numbers.now) (lists_view columns.now)
        (length computation.now.events) }
    requires process { p < length computation.now.events }
    requires event { i < length (slice_index_or (lists_view numbers.now) p []) }
    requires last { length last.old.items ≡ length computation.now.events }
    ensures last { IfOk result (λ _. length last.new.items ≡ length computation.now.events) }
    ensures planned { IfOk result (λ _. GoesOn computation.now (lists_view numbers.now) p i
        (length computation.now.events) events.old events.new last.old.items last.new.items) }
    // At most one for each other process.
    ensures few { IfOk result (λ _. length events.new + 1 ≤ length events.old + length computation.now.events) }
{
    computation.limits();
    for q in 0..columns.len() {
        if q != p {
            let known = known_count(computation, numbers, columns, p, i, q);
            let through = comes_through(computation, numbers, columns, p, i, q, known);
            receive(alloc, q, known, through, last, events)?;
        }
    }
    Ok(())
}
