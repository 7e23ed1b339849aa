//! Says where an event was recorded, and what it did.
use super::session::{Session, name_of, noted_at, source_of};
use app_text::{Source, Text, record_after};
use judge_facts::{has_event, kind_at};
use pd_clock::{Computation, Place};
use read_traces::Kind;

/// Says in which file and line the event with this number was recorded.
fn say_record(out: &mut Text, source: &Source<'_>, number: u64) {
    out.say_shown(source.name.as_bytes());
    if let Some(record) = record_after(source.bytes, number) {
        out.say(", line ");
        out.say_number(record.line);
        if source.before > 0 {
            out.say("; bundle line ");
            out.say_number(source.before.saturating_add(record.line));
        }
    }
}

/// The event that sent what the event at this place received, if it is a receipt.
fn sender_of(computation: &Computation<'_>, place: Place) -> Option<Place> {
    if computation.has(place) {
        return computation.sender(place);
    }
    None
}

/// Says the id of a message between two backquotes.
fn say_id(out: &mut Text, id: &[u8]) {
    out.say("`");
    out.say_shown(id);
    out.say("`");
}

/// Says which message an event receives, and from whom.
fn say_receipt(out: &mut Text, session: &Session<'_, '_>, place: Place, id: &[u8]) {
    out.say("receives ");
    say_id(out, id);
    match sender_of(session.computation, place) {
        Some(send) => {
            out.say(" from ");
            out.say_name(name_of(session.spec.names(), send.process));
        }
        None => (),
    }
}

/// Says what the event at this place did.
pub(crate) fn say_deed(out: &mut Text, session: &Session<'_, '_>, place: Place) {
    match kind_at(session.traces, place) {
        Some(Kind::Send(id)) => {
            out.say("sends ");
            say_id(out, id);
        }
        Some(Kind::Recv(id)) => say_receipt(out, session, place, id),
        Some(Kind::Local) | None => out.say("is local"),
    }
}

/// Says what a process does next, after this cut, if the event at this place is the next one.
pub(crate) fn say_next(out: &mut Text, session: &Session<'_, '_>, counts: &[u64], place: Place) {
    out.say_name(name_of(session.spec.names(), place.process));
    match kind_at(session.traces, place) {
        None => out.say(" has no more events"),
        Some(Kind::Local) => out.say(" has a local event"),
        Some(_) => {
            out.say(" ");
            say_deed(out, session, place);
            match sender_of(session.computation, place) {
                Some(send) if !has_event(counts, send) => out.say(" (not sent yet)"),
                _ => (),
            }
        }
    }
}

/// Says in which file and line an event was recorded, and what was noted of it, as far as that is known.
pub(crate) fn say_place(out: &mut Text, session: &Session<'_, '_>, place: Place) {
    let source = source_of(session.sources, place.process);
    let noted = noted_at(session, place);
    if source.is_none() && noted.is_none() {
        return;
    }
    out.say(" (");
    if let Some(source) = source {
        say_record(out, &source, place.number);
    }
    if let Some(noted) = noted {
        out.say(if source.is_some() {
            "; note: "
        } else {
            "note: "
        });
        out.say_note(&noted);
    }
    out.say(")");
}
