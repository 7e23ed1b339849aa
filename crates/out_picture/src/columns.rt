//! The columns of events.
ghost use Rattle.pd_clock.specs.Orders.{CanGo, IsOrdered, Waits};
ghost use Rattle.def_format.specs.Limits.{event_limit, process_limit};
ghost use Rattle.def_model.specs.Cuts.{one_more, total};
ghost use Rattle.out_picture.specs.Columns.{AreColumns, ColumnsStandRight};
ghost use Rattle.out_picture.specs.Tables.{HasColumns, IsNextColumn, IsTable, column_at, column_of, row_of};
ghost use Rattle.std.specs.Prelude.{◌≡◌, ◌<◌, ◌≤◌, ◌*◌, ◌∷◌, [], ℕ, IfNone, IfOk, IfSome, IsTrue, false, length, replicate};

use pd_clock::{Computation, Place};
use std::alloc::{AllocError, Global};

/// How many of the first events of each process have a column, and the columns: a row for each process, which begins
/// with a 0 before its first event.
#[derive(Drop)]
struct Table {
    done: Vec<u64>,
    rows: Vec<Vec<u32>>,
}

/// The table of no event.
fn no_columns(alloc: Global, processes: usize) -> Result<Table, AllocError>
    ensures none { IfOk result (λ table. table.done.items ≡ replicate processes 0) }
    ensures one_each { IfOk result (λ table. length table.rows.items ≡ processes) }
    ensures zeros { IfOk result (λ table. (p : ℕ) → p < processes → row_of table.rows.items p ≡ 0 ∷ []) }
{
    let done = vec![in alloc; 0; processes]?;
    let mut rows = Vec::with_capacity(alloc, processes)?;
    for _process in 0..processes {
        rows.push(vec![in alloc; 0]?)?;
    }
    Ok(Table { done, rows })
}

/// Whether process `p` has a next event that can have a column: if it is a receipt, its send has one.
fn can_go(computation: &Computation<'_>, done: &[u64], p: usize) -> bool
    requires within { p < length computation.now.events }
    requires ordered { IsOrdered computation.now.events done.now }
    ensures goes { IsTrue result → CanGo computation.now.events done.now p }
    ensures waits { result ≡ false → Waits computation.now.events done.now p }
{
    if done[p] >= computation.events(p) {
        return false;
    }
    let next = Place {
        process: p,
        number: done[p] + 1,
    };
    match computation.sender(next) {
        Some(send) => send.number <= done[send.process],
        None => true,
    }
}

/// The first of the processes from `start` to below `end` whose next event can have a column.
fn first_that_can_go(
    computation: &Computation<'_>,
    done: &[u64],
    start: usize,
    end: usize,
) -> Option<usize>
    requires within { end ≤ length computation.now.events }
    requires ordered { IsOrdered computation.now.events done.now }
    ensures found { IfSome result (λ p. CanGo computation.now.events done.now p) }
    ensures none { IfNone result ((p : ℕ) → start ≤ p → p < end → Waits computation.now.events done.now p) }
{
    for p in start..end {
        if can_go(computation, done, p) {
            return Some(p);
        }
    }
    None
}

/// A process whose next event can have a column, if there is one: `last` if it can, so that a run of events of one
/// process is short work.
fn next_that_can_go(computation: &Computation<'_>, done: &[u64], last: usize) -> Option<usize>
    requires within { last ≤ length computation.now.events }
    requires ordered { IsOrdered computation.now.events done.now }
    ensures found { IfSome result (λ p. CanGo computation.now.events done.now p) }
    ensures none { IfNone result ((p : ℕ) → Waits computation.now.events done.now p) }
{
    match first_that_can_go(computation, done, last, computation.processes()) {
        Some(p) => Some(p),
        None => first_that_can_go(computation, done, 0, last),
    }
}

/// The column of a place, which is 0 if there is none.
fn column_of(rows: &[Vec<u32>], event: Option<Place>) -> u32
    requires { IfSome event (λ e. (e.process < length rows.now)
        × (e.number < length (row_of rows.now e.process))) }
    ensures { result ≡ column_of rows.now event }
{
    match event {
        Some(e) => rows[e.process][e.number as usize],
        None => 0,
    }
}

/// The column of the next event of process `p`, which can go.
fn next_column(computation: &Computation<'_>, table: &Table, p: usize) -> u32
    requires few { total computation.now.events ≤ event_limit * process_limit }
    requires ordered { IsOrdered computation.now.events table.now.done.items }
    requires columns { HasColumns computation.now.events table.now.done.items table.now.rows.items }
    requires goes { CanGo computation.now.events table.now.done.items p }
    ensures { IsNextColumn computation.now.events table.now.done.items table.now.rows.items p result }
{
    let number = table.done[p];
    let send = computation.sender(Place {
        process: p,
        number: number + 1,
    });
    let previous = column_of(&table.rows, Some(Place { process: p, number }));
    let sent = column_of(&table.rows, send);
    previous.max(sent) + 1
}

/// Gives the next event of process `p`, which can go, its column.
fn add(computation: &Computation<'_>, table: &mut Table, p: usize) -> Result<(), AllocError>
    requires few { total computation.now.events ≤ event_limit * process_limit }
    requires ordered { IsOrdered computation.now.events table.old.done.items }
    requires columns { HasColumns computation.now.events table.old.done.items table.old.rows.items }
    requires goes { CanGo computation.now.events table.old.done.items p }
    ensures done { IfOk result (λ _. table.new.done.items ≡ one_more table.old.done.items p) }
    ensures columns { IfOk result (λ _. HasColumns computation.now.events table.new.done.items
        table.new.rows.items) }
{
    let column = next_column(computation, table, p);
    table.rows[p].push(column)?;
    table.done[p] += 1;
    Ok(())
}

/// The columns of the events of each process: a row for each process, which begins with a 0 before its first event.
///
/// It goes through a topological order (Kahn, Topological Sorting of Large Networks, 1962), and each event that it
/// comes to stands right of the event before it in its process and of the send of its message.
///
/// # Errors
/// Out of memory.
pub(crate) fn columns(
    alloc: Global,
    computation: &Computation<'_>,
) -> Result<Vec<Vec<u32>>, AllocError>
    ensures longest { IfOk result (λ rows. AreColumns computation.now.events (column_at rows.items)) }
    ensures table { IfOk result (λ rows. IsTable computation.now.events rows.items) }
{
    computation.limits();
    let _events = computation.total();
    let mut table = no_columns(alloc, computation.processes())?;
    let mut last = 0;
    while let Some(p) = next_that_can_go(computation, &table.done, last) {
        add(computation, &mut table, p)?;
        last = p;
    }
    Ok(table.rows)
}

/// The law of columns: if each event's column is the length of the longest chain that ends in it, each event stands
/// right of all that happened before it. It has no code.
pub fn columns_stand_right()
    ensures { ColumnsStandRight }
{}
