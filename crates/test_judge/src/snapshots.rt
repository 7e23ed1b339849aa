//! Snapshots, and their writing in parts.
use super::ends::{due_word, fault_word};
use super::sessions::DOCUMENT;
use super::writers::{Full, Writer};
use judge_session::write_snapshot;
use pd_engine::{Row, RowState, Snapshot, Spec};
use std::alloc::{AllocError, Global};
use std::test::Fail;

/// A row for a stream of each state, one of which has joined a process that isn't in the document.
fn rows(alloc: Global) -> Result<Vec<Row>, AllocError> {
    let mut rows = Vec::new(alloc);
    for (process, events, state) in [
        (None, 0, RowState::Fresh),
        (Some(1), 3, RowState::Joined),
        (Some(0), 10_000, RowState::Ended),
        (None, 0, RowState::Faulted),
        (Some(2), 7, RowState::Faulted),
    ] {
        rows.push(Row {
            process,
            events,
            state,
        })?;
    }
    Ok(rows)
}

const TEXT: &str = "stream 1 process - events 0 fresh\n\
stream 2 process b events 3 joined\n\
stream 3 process a events 10000 ended\n\
stream 4 process - events 0 faulted\n\
stream 5 process - events 7 faulted\n";

/// How the writing of these rows ends, in a word.
fn written(alloc: Global, spec: &Spec, rows: Vec<Row>, writer: &mut Writer) -> &'static str {
    match write_snapshot(alloc, spec, &Snapshot { rows }, writer) {
        Ok(()) => "whole",
        Err(fault) => fault_word(&fault),
    }
}

/// Whether the rows are written as far as a writer has room, and no row as no text.
fn is_written(alloc: Global, spec: &Spec, room: usize) -> Result<bool, AllocError> {
    let mut writer = Writer::new(alloc, room, Full::Idles)?;
    let end = written(alloc, spec, rows(alloc)?, &mut writer);
    let mut empty = Writer::new(alloc, room, Full::Idles)?;
    let none = written(alloc, spec, Vec::new(alloc), &mut empty);
    let is_empty = none == "whole" && empty.taken.is_empty();
    Ok(is_empty && end == due_word(room, TEXT, "whole") && writer.has_taken(TEXT, room))
}

/// The writer is full after each byte of the text in turn.
#[test]
fn snapshots_have_texts(rt: HostRuntime) -> Result<(), Fail> {
    let spec = Spec::read(rt.alloc(), DOCUMENT.as_bytes())?;
    for room in 0..=TEXT.len() {
        assert!(rt; is_written(rt.alloc(), &spec, room)?, "{room}");
    }
    Ok(())
}
