//! Which sends are received.
ghost use Rattle.pd_match.specs.Views.{place_view};
ghost use Rattle.def_model.specs.Events.{event_count};
ghost use Rattle.out_picture.specs.Received.{AreReceived, mark_at, marks_of, with_mark};
ghost use Rattle.read_traces.specs.Views.{computation_view};
ghost use Rattle.std.specs.Prelude.{◌≡◌, ◌≢◌, ◌<◌, IfOk, false, length, replicate, ℕ};

use super::cycle_columns::count_of;
use pd_clock::Place;
use read_traces::Trace;
use std::alloc::{AllocError, Global};

/// A row for each process with a mark for each of its events. None is set.
fn no_marks(alloc: Global, traces: &[Trace]) -> Result<Vec<Vec<bool>>, AllocError>
    ensures one_each { IfOk result (λ rows. length rows.items ≡ length traces.now) }
    ensures unset { IfOk result (λ rows. (p : ℕ) → p < length traces.now
        → marks_of rows.items p ≡ replicate (event_count (computation_view traces.now) p) false) }
{
    let mut rows = Vec::with_capacity(alloc, traces.len())?;
    for p in 0..traces.len() {
        let marks = vec![in alloc; false; count_of(traces, p) as usize]?;
        rows.push(marks)?;
    }
    Ok(rows)
}

/// Sets the mark of the event with this number, if there is one.
fn set_mark(marks: &mut [bool], number: u64)
    ensures { marks.new ≡ with_mark marks.old number }
{
    if number > 0 && number <= marks.len() as u64 {
        marks[number as usize - 1] = true;
    }
}

/// Sets the mark of an event, if there is one.
fn mark(rows: &mut Vec<Vec<bool>>, event: Place)
    ensures here { marks_of rows.new.items event.process
        ≡ with_mark (marks_of rows.old.items event.process) event.number }
    ensures others { (p : ℕ) → p ≢ event.process → marks_of rows.new.items p ≡ marks_of rows.old.items p }
{
    if event.process < rows.len() {
        set_mark(&mut rows[event.process], event.number);
    }
}

/// Which sends are received: a row for each process with a mark for each of its events. The marks of the sends of these
/// messages are set, in one pass.
///
/// # Errors
/// Out of memory.
pub(crate) fn received_sends(
    alloc: Global,
    traces: &[Trace],
    messages: &[(Place, Place)],
) -> Result<Vec<Vec<bool>>, AllocError>
    ensures { IfOk result (λ rows. AreReceived (computation_view traces.now) messages.now rows.items) }
{
    let mut rows = no_marks(alloc, traces)?;
    for message in messages {
        mark(&mut rows, message.0);
    }
    Ok(rows)
}

/// Whether the mark of an event is set; it isn't if there is no such event.
pub(crate) fn is_marked(rows: &[Vec<bool>], event: Place) -> bool
    ensures { result ≡ mark_at rows.now (place_view event) }
{
    let Some(marks) = rows.get(event.process) else {
        return false;
    };
    match marks.get(event.number.saturating_sub(1) as usize) {
        Some(mark) => *mark,
        None => false,
    }
}
