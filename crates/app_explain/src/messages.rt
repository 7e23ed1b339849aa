//! Explains why the messages of a session are refused.
ghost use Rattle.app_explain.specs.Fields.{is_text, message_of, text_in};
ghost use Rattle.std.specs.Option.{option_map};
ghost use Rattle.std.specs.Prelude.{◌≡◌, string_bytes, IfOk};

use super::fields::text_in_line;
use super::words::MessageWord;
use app_text::{Source, Text, next_record, record_after};
use std::alloc::{AllocError, Global};

/// What a word for messages that don't match means, of an event.
fn meaning(word: MessageWord) -> &'static str {
    match word {
        MessageWord::SendTwice => "sends a message with an id that another event sends too.",
        MessageWord::Orphan => "receives a message that no event of the session sends.",
        MessageWord::SelfMessage => "receives a message that its own process sends.",
        MessageWord::ReceivedTwice => "receives a message that is received by another event too.",
    }
}

/// What is expected in place of what has this fault.
fn expected(word: MessageWord) -> &'static str {
    match word {
        MessageWord::SendTwice => "an id of its own for each message that is sent.",
        MessageWord::Orphan =>
            "for each receipt an event of another process that sends the message with this id.",
        MessageWord::SelfMessage => "a message that goes from one process to another.",
        MessageWord::ReceivedTwice => {
            "one receipt of each message; with \"version\":2 in the document one in each process that receives it."
        }
    }
}

/// What to do about this fault.
fn advice(word: MessageWord) -> &'static str {
    match word {
        MessageWord::SendTwice => {
            "make ids of the name of the sender and a counter, also over restarts; a message that is sent again is \
recorded once."
        }
        MessageWord::Orphan => {
            "record the send before the message leaves, with the id that travels with it; record the receipt of what \
comes from outside of the session as {}."
        }
        MessageWord::SelfMessage =>
            "record {} in place of both events, since what a process does stands in its order anyway.",
        MessageWord::ReceivedTwice => {
            "record the first receipt alone; if several processes receive the message, the document needs \
\"version\":2."
        }
    }
}

/// The id of the message that this event sends or receives, where events count from 1, in the bytes of its stream.
///
/// # Errors
/// Out of memory.
pub fn message_of(alloc: Global, bytes: &[u8], number: u64) -> Result<Option<String>, AllocError>
    ensures { IfOk result (λ found. option_map string_bytes found ≡ message_of number bytes.now) }
{
    let Some(record) = record_after(bytes, number) else {
        return Ok(None);
    };
    match text_in_line(alloc, record.bytes, "send")? {
        Some(id) => Ok(Some(id)),
        None => text_in_line(alloc, record.bytes, "recv"),
    }
}

/// An event, by the name of its process and its number, counted from 1.
#[derive(Clone, Copy)]
pub struct EventName<'a> {
    /// The name of its process.
    pub process: &'a str,
    /// Its number.
    pub number: u64,
}

/// Says which event it is.
fn say_event(out: &mut Text, event: EventName<'_>) {
    out.say("Event ");
    out.say_number(event.number);
    out.say(" of process ");
    out.say_name(event.process);
}

/// Explains why an event's message is refused: what it means. What is expected is said by `advise_messages`.
pub fn explain_message(out: &mut Text, event: EventName<'_>, word: MessageWord) {
    say_event(out, event);
    out.say(" ");
    out.say(meaning(word));
    out.say("\n");
}

/// Says what is expected of messages in place of what has this fault, and what to do.
pub fn advise_messages(out: &mut Text, word: MessageWord) {
    out.say_advice(expected(word), advice(word));
}

/// Shows the line of an event in its stream.
pub fn show_event(out: &mut Text, source: &Source<'_>, event: EventName<'_>) {
    match record_after(source.bytes, event.number) {
        Some(record) => out.show_numbered(source, record.line, record.bytes, None),
        None => (),
    }
}

/// Which other events with the id of a message are shown, and what is said of each.
#[derive(Clone, Copy)]
pub struct Others<'a> {
    /// The field of their lines that has the id: `send` or `recv`.
    pub field: &'a str,
    /// What is said before the line.
    pub said: &'a str,
}

/// Shows the first event of a stream that sends or receives the message with this id, as the field says, and isn't the
/// event with this number. It gives the number of the one that it shows.
pub fn show_other(
    out: &mut Text,
    alloc: Global,
    source: &Source<'_>,
    others: Others<'_>,
    id: &str,
    but: u64,
) -> Option<u64> {
    let mut rest = source.bytes;
    let mut line = 0u64;
    for number in 0..u64::MAX {
        let Some(record) = next_record(rest, line) else {
            return None;
        };
        rest = record.after;
        line = record.line;
        if number == 0 || number == but {
            continue;
        }
        let Some(is_other) = out.take_made(has_id(alloc, record.bytes, others.field, id)) else {
            return None;
        };
        if is_other {
            out.say(others.said);
            out.show_numbered(source, line, record.bytes, None);
            return Some(number);
        }
    }
    None
}

/// Whether a record sends or receives, as the field says, the message with this id.
fn has_id(alloc: Global, line: &[u8], field: &str, id: &str) -> Result<bool, AllocError>
    ensures { IfOk result (λ has. has ≡ is_text id.now (text_in field.now line.now)) }
{
    match text_in_line(alloc, line, field)? {
        Some(found) => Ok(found.as_str() == id),
        None => Ok(false),
    }
}

/// Says what a causal cycle is. Its events are shown by `show_step`.
pub fn explain_cycle(out: &mut Text) {
    out.say(
        "Each of these events receives a message that the process of the next one sends after that next one, and the \
last one a message that the process of the first one sends after the first. So each of them would have happened before \
itself.\n",
    );
}

/// Shows an event of a causal cycle with its message, if it has one.
pub fn show_step(out: &mut Text, alloc: Global, source: Option<&Source<'_>>, event: EventName<'_>) {
    say_event(out, event);
    let Some(source) = source else {
        out.say(".\n");
        return;
    };
    let Some(id) = out.take_made(message_of(alloc, source.bytes, event.number)) else {
        return;
    };
    if let Some(id) = id {
        out.say(" receives the message ");
        out.say_name(&id);
    }
    out.say(". ");
    show_event(out, source, event);
}

/// Says what to do about a causal cycle.
pub fn advise_cycle(out: &mut Text) {
    out.say_advice(
        "in each stream the events in the order in which they happened, a send before the message leaves and a \
receipt after it has come.",
        "look at the streams of these events for lines in the wrong order: two threads that write without one lock, a \
send that is recorded too late, or an id that is used twice.",
    );
}

/// Explains that no stream is one of this process.
pub fn explain_absent(out: &mut Text, process: &str) {
    out.say("No stream is that of process ");
    out.say_name(process);
    out.say(", which the session document names.\n");
}

/// Says whose stream a file is.
pub fn show_join(out: &mut Text, file: &str, process: Option<&str>) {
    out.say("    ");
    out.say_shown(file.as_bytes());
    match process {
        Some(process) => {
            out.say(" is the stream of ");
            out.say_name(process);
        }
        None => out.say(" doesn't say whose stream it is"),
    }
    out.say("\n");
}

/// Says what to do about a stream that is absent.
pub fn advise_absent(out: &mut Text) {
    out.say_advice(
        "a stream for each process of the document, one that recorded nothing too: its join and its end line.",
        "give the stream of that process too, or take the process out of the document.",
    );
}

/// Explains that there are too many streams, of a session or of a run of any length.
pub(crate) fn explain_streams(out: &mut Text, is_run: bool) {
    if is_run {
        out.say("There are more than 8,192 streams.\n");
        out.say_advice(
            "one stream for each process, of which a run has at most 4,096.",
            "name the files of one run alone.",
        );
        return;
    }
    out.say("There are more than 32 streams.\n");
    out.say_advice(
        "one stream for each process, of which a session has at most 16.",
        "name the files of one run alone. Of a run of more processes make a session that has the same answers: monitor \
reduce, with the same document and streams, and --to FOLDER.",
    );
}
