//! Explains what was noted of events, and which lines of notes are none.

use super::messages::EventName;
use app_text::{Text, next_record};
use pd_pred::Names;
use read_notes::EventNotes;

/// The names of the processes of a session, and what was noted of their events.
#[derive(Clone, Copy)]
pub struct NotedEvents<'a> {
    /// The names, in the order of the document.
    pub names: &'a Names,
    /// What was noted.
    pub notes: &'a EventNotes,
}

/// Says what was noted of an event that was just shown, if that is known.
pub(crate) fn put_note(out: &mut Text, notes: Option<&EventNotes>, event: EventName<'_>) {
    match notes.and_then(|notes| notes.of(event.process, event.number)) {
        Some(noted) => {
            out.say("Its note: ");
            out.say_note(&noted);
            out.say(".\n");
        }
        None => (),
    }
}

/// Says which event it is, and what was noted of it, if that is known.
pub(crate) fn put_noted_event(out: &mut Text, notes: &EventNotes, event: EventName<'_>) {
    if notes.of(event.process, event.number).is_none() {
        return;
    }
    out.say("Event ");
    out.say_number(event.number);
    out.say(" of process ");
    out.say_name(event.process);
    out.say(". ");
    put_note(out, Some(notes), event);
}

/// How many records stand before the line with this number.
fn records_before(bytes: &[u8], line: u64) -> u64 {
    let mut rest = bytes;
    let mut at = 0u64;
    for count in 0..u64::MAX {
        match next_record(rest, at) {
            Some(record) if record.line < line => {
                rest = record.after;
                at = record.line;
            }
            _ => return count,
        }
    }
    u64::MAX
}

/// Says what was noted of the last event before the line with this number, in the stream of this process, if that is
/// known.
pub(crate) fn put_last_note(
    out: &mut Text,
    notes: Option<&EventNotes>,
    process: &str,
    bytes: &[u8],
    line: u64,
) {
    let Some(notes) = notes else {
        return;
    };
    let number = records_before(bytes, line).saturating_sub(1);
    if notes.of(process, number).is_none() {
        return;
    }
    out.say("The last event before the fault is event ");
    out.say_number(number);
    out.say(". ");
    put_note(out, Some(notes), EventName { process, number });
}

/// Says how many lines of the notes in the files of these names are none, and of the first one where it stands and why.
pub fn explain_wrong_notes(out: &mut Text, names: &[&str], notes: &EventNotes) {
    let Some(first) = notes.first_wrong() else {
        return;
    };
    let count = notes.wrong_count();
    out.say_number(count);
    out.say(if count == 1 {
        " line of the notes is no note: "
    } else {
        " lines of the notes are no notes. The first of them: "
    });
    if let Some(name) = names.get(first.file) {
        out.say_shown(name.as_bytes());
        out.say(", ");
    }
    out.say("line ");
    out.say_number(first.line);
    out.say(": ");
    out.say(first.why);
    out.say(".\n");
}
