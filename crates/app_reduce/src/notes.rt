//! Notes that say which events of a run the events of its session are.
//!
//! No clause speaks of them: they are for people, beside a session that is proved without them.
use super::outcome::MadeSession;
use pd_report::{push_bytes, push_number};
use std::alloc::{AllocError, Global};

/// Appends the note on the event with this number of the process of this name: it is the event with that number of the
/// run.
fn push_note(out: &mut Vec<u8>, process: &str, event: u64, number: u64) -> Result<(), AllocError> {
    push_bytes(out, b"{\"process\":\"")?;
    push_bytes(out, process.as_bytes())?;
    push_bytes(out, b"\",\"event\":")?;
    push_number(out, event)?;
    push_bytes(out, b",\"text\":\"event ")?;
    push_number(out, number)?;
    push_bytes(out, b" of the run\",\"place\":\"\"}\n")
}

/// Appends the notes on the events of a process, which have these numbers, and those in the run.
fn push_notes(
    out: &mut Vec<u8>,
    process: &str,
    events: &[u64],
    numbers: &[u64],
) -> Result<(), AllocError> {
    for k in 0..events.len() {
        if k < numbers.len() {
            push_note(out, process, events[k], numbers[k])?;
        }
    }
    Ok(())
}

/// The notes on the events of a session that stand for kept events of its run, a line each: which number that one has
/// in its stream, counted from 1.
///
/// # Errors
/// An allocation was refused.
pub(crate) fn notes_text(alloc: Global, made: &MadeSession) -> Result<Vec<u8>, AllocError> {
    let mut out = Vec::new(alloc);
    let names = made.spec.names();
    let session = &made.session;
    for i in 0..session.places.len() {
        let p = session.places[i];
        if i < session.numbers.len() && p < made.numbers.len() && p < names.processes() {
            push_notes(
                &mut out,
                names.name(p),
                &session.numbers[i],
                &made.numbers[p],
            )?;
        }
    }
    Ok(out)
}
