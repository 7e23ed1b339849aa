//! What is noted of the events of a session, as a picture of it says it.
use out_picture::EventLabel;
use pd_clock::Place;
use pd_pred::Names;
use read_notes::EventNote;
use read_traces::Trace;
use std::alloc::{AllocError, Global};

/// What is found of the notes on an event.
#[derive(Clone, Copy)]
struct Found {
    /// The place of the note that says most, if one says something: the first one with a text, or else the first one
    /// with a place.
    note: Option<usize>,
    /// How many notes the event has.
    count: u64,
}

/// Nothing.
const NOTHING: Found = Found {
    note: None,
    count: 0,
};

/// What a note says in a label: its text, or where the event was recorded if it has none.
fn words_of(note: &EventNote) -> &str {
    if note.text.is_empty() {
        note.place.as_str()
    } else {
        note.text.as_str()
    }
}

/// Whether a note says more than the one at this place, if there is one.
fn says_more(notes: &[EventNote], found: Option<usize>, note: &EventNote) -> bool {
    match found.and_then(|place| notes.get(place)) {
        Some(found) => found.text.is_empty() && !note.text.is_empty(),
        None => !note.is_empty(),
    }
}

/// For each event of each process what is found before the first note: nothing.
fn nothing_found(alloc: Global, traces: &[Trace]) -> Result<Vec<Vec<Found>>, AllocError> {
    let mut rows = Vec::with_capacity(alloc, traces.len())?;
    for trace in traces {
        rows.push(vec![in alloc; NOTHING; trace.events.len()]?)?;
    }
    Ok(rows)
}

/// Takes the note at this place, which is one on the event with this number, to what is found of a process's events, if
/// it has that event.
fn find_note(row: &mut [Found], notes: &[EventNote], place: usize, note: &EventNote) {
    if note.event == 0 || note.event > row.len() as u64 {
        return;
    }
    let event = note.event as usize - 1;
    let found = row[event];
    let more = says_more(notes, found.note, note);
    row[event] = Found {
        note: if more { Some(place) } else { found.note },
        count: found.count.saturating_add(1),
    };
}

/// What is found of the notes on each event of each process. A note on an event that isn't there is passed over.
fn found_notes(
    alloc: Global,
    names: &Names,
    traces: &[Trace],
    notes: &[EventNote],
) -> Result<Vec<Vec<Found>>, AllocError> {
    let mut rows = nothing_found(alloc, traces)?;
    for (place, note) in notes.iter().enumerate() {
        if let Some(process) = names.find(&note.process) {
            if process < rows.len() {
                find_note(&mut rows[process], notes, place, note);
            }
        }
    }
    Ok(rows)
}

/// Adds the label of an event of which this is found, if a note says something.
fn push_label(
    alloc: Global,
    labels: &mut Vec<EventLabel>,
    notes: &[EventNote],
    event: Place,
    found: Found,
) -> Result<(), AllocError> {
    match found.note.and_then(|place| notes.get(place)) {
        Some(note) => {
            let others = found.count.saturating_sub(1);
            labels.push(EventLabel::new(alloc, event, words_of(note), others)?)?;
            Ok(())
        }
        None => Ok(()),
    }
}

/// What is noted of the events of these traces, one label for each event of which a note says something. A note names
/// an event by its process and its number. It takes time and memory in the number of notes and events.
///
/// # Errors
/// Out of memory.
pub(crate) fn labels_of(
    alloc: Global,
    names: &Names,
    traces: &[Trace],
    notes: &[EventNote],
) -> Result<Vec<EventLabel>, AllocError> {
    let mut labels = Vec::new(alloc);
    if notes.is_empty() {
        return Ok(labels);
    }
    let rows = found_notes(alloc, names, traces, notes)?;
    for (process, row) in rows.iter().enumerate() {
        for (place, found) in row.iter().enumerate() {
            let number = (place as u64).saturating_add(1);
            push_label(alloc, &mut labels, notes, Place { process, number }, *found)?;
        }
    }
    Ok(labels)
}
