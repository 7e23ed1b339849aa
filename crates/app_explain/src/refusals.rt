//! Explains the refusal of a session by what was read of it.
use super::documents::{explain_document, explain_document_word};
use super::messages::{
    EventName, Others, advise_absent, advise_cycle, advise_messages, explain_absent, explain_cycle,
    explain_message, explain_streams, message_of, show_event, show_join, show_other, show_step,
};
use super::noted::{put_last_note, put_note};
use super::predicates::{PredicateFault, explain_predicate, explain_predicate_word};
use super::seen::{Seen, SeenStream};
use super::streams::{
    StreamFault, explain_stream, explain_stream_with, explain_stream_word, joined_name,
};
use super::words::{DocumentWord, MessageWord, PredicateWord, StreamWord};
use app_text::{Source, Text};
use pd_report::Refusal;
use pd_spec::{Options, document_text};
use std::alloc::{AllocError, Global};

/// The most events of a causal cycle that are shown.
const SHOWN_EVENTS: usize = 16;

/// Whether a fault of this word may be one of what is asked in place of what the document says, and not of that.
fn may_be_asked(options: Option<&Options<'_>>, word: DocumentWord) -> bool {
    match options {
        Some(options) => !options.keep_fields()
            && (word == DocumentWord::Shape || word == DocumentWord::Predicates),
        None => false,
    }
}

/// Whether predicates are asked in place of the document's.
fn asks_predicates(options: Option<&Options<'_>>) -> bool {
    match options {
        Some(options) => !options.predicates.is_empty(),
        None => false,
    }
}

/// Where the texts of the predicates come from.
fn predicates_of<'a>(document: &'a str, options: Option<&Options<'_>>) -> &'a str {
    if asks_predicates(options) {
        "--ask"
    } else {
        document
    }
}

/// The text of the document with what was asked, if it has one.
fn asked_text(alloc: Global, bytes: &[u8], options: Option<&Options<'_>>) -> Option<Vec<u8>> {
    match options {
        Some(options) => document_text(alloc, bytes, options).ok(),
        None => Vec::from_slice(alloc, bytes).ok(),
    }
}

/// Explains a document in which two names are the same, as it is with the predicates that are asked.
fn put_twice(out: &mut Text, alloc: Global, seen: Seen<'_>, document: &Source<'_>) {
    match asked_text(alloc, document.bytes, seen.options) {
        Some(bytes) => {
            let source = Source {
                name: "the document with what --ask asks",
                bytes: &bytes,
                before: 0,
            };
            explain_document(out, alloc, &source, DocumentWord::NameTwice);
        }
        None => explain_document_word(out, DocumentWord::NameTwice),
    }
}

/// Explains a document that is refused by this word.
fn put_document(out: &mut Text, alloc: Global, seen: Seen<'_>, word: DocumentWord) {
    match seen.document {
        Some(source) if word == DocumentWord::NameTwice && asks_predicates(seen.options) => {
            put_twice(out, alloc, seen, &source);
        }
        Some(source) if !may_be_asked(seen.options, word) => {
            explain_document(out, alloc, &source, word);
        }
        _ => explain_document_word(out, word),
    }
}

/// Explains a predicate whose text is refused.
fn put_predicate(out: &mut Text, alloc: Global, seen: Seen<'_>, fault: PredicateFault) {
    let Some(document) = seen.document else {
        explain_predicate_word(out, fault);
        return;
    };
    match asked_text(alloc, document.bytes, seen.options) {
        Some(bytes) => {
            let source = Source {
                name: predicates_of(document.name, seen.options),
                bytes: &bytes,
                before: 0,
            };
            explain_predicate(out, alloc, &source, fault);
        }
        None => explain_predicate_word(out, fault),
    }
}

/// Explains a stream that can't be read, in the system's words if they are known.
fn put_unread(out: &mut Text, alloc: Global, stream: &SeenStream<'_>, fault: StreamFault) {
    let why = stream.failure;
    if why.is_empty() {
        explain_stream_with(out, fault, stream.file, "");
        return;
    }
    let Some(said) = out.take_made(format!(in alloc; "The system says: {why}")) else {
        return;
    };
    explain_stream_with(out, fault, stream.file, &said);
}

/// Whose stream it is, if it is known and says so.
fn process_of(alloc: Global, stream: &SeenStream<'_>) -> Result<Option<String>, AllocError> {
    match stream.source {
        Some(source) => joined_name(alloc, source.bytes),
        None => Ok(None),
    }
}

/// The place, counted from 0, of the first stream of this process, with its bytes.
fn stream_of<'a>(
    alloc: Global,
    seen: Seen<'a>,
    process: &str,
) -> Result<Option<(usize, &'a SeenStream<'a>, Source<'a>)>, AllocError> {
    let streams = seen.streams;
    for (place, stream) in streams.iter().enumerate() {
        if let (Some(source), Some(found)) = (stream.source, process_of(alloc, stream)?) {
            if found.as_str() == process {
                return Ok(Some((place, stream, source)));
            }
        }
    }
    Ok(None)
}

/// Which stream is one of this process, in a sentence without its end.
fn other_stream(
    alloc: Global,
    place: usize,
    file: &str,
    process: &str,
) -> Result<String, AllocError> {
    let number = (place as u64).saturating_add(1);
    if file.is_empty() {
        return format!(in alloc; "Stream {number} is one of process `{process}` too");
    }
    format!(in alloc; "Stream {number}, {file}, is one of process `{process}` too")
}

/// Explains a stream of a process that an earlier stream is one of.
fn put_taken(
    out: &mut Text,
    alloc: Global,
    seen: Seen<'_>,
    stream: &SeenStream<'_>,
    fault: StreamFault,
) {
    let Some(Some(process)) = out.take_made(process_of(alloc, stream)) else {
        explain_stream_with(out, fault, stream.file, "");
        return;
    };
    let why = match out.take_made(stream_of(alloc, seen, &process)) {
        Some(Some((place, other, _))) => {
            out.take_made(other_stream(alloc, place, other.file, &process))
        }
        _ => None,
    };
    explain_stream_with(out, fault, stream.file, why.as_deref().unwrap_or(""));
}

/// Explains a stream that is refused by what it says.
fn put_line(
    out: &mut Text,
    alloc: Global,
    seen: Seen<'_>,
    stream: &SeenStream<'_>,
    fault: StreamFault,
) {
    match seen.spec(alloc) {
        Some(spec) => explain_stream(out, alloc, spec.names(), *stream, seen.order, fault),
        None => explain_stream_word(out, fault, stream.file, seen.order),
    }
    match (stream.source, out.take_made(process_of(alloc, stream))) {
        (Some(source), Some(Some(process))) => {
            put_last_note(out, seen.notes, &process, source.bytes, fault.line);
        }
        _ => (),
    }
}

/// Explains a stream that is refused.
fn put_stream(out: &mut Text, alloc: Global, seen: Seen<'_>, fault: StreamFault) {
    let Some(stream) = seen.stream(fault.stream) else {
        explain_stream_word(out, fault, "", seen.order);
        return;
    };
    match fault.word {
        StreamWord::Read => put_unread(out, alloc, stream, fault),
        StreamWord::Taken => put_taken(out, alloc, seen, stream, fault),
        _ => put_line(out, alloc, seen, stream, fault),
    }
}

/// Explains that a process has no stream, and says whose streams there are.
fn put_absent(out: &mut Text, alloc: Global, seen: Seen<'_>, process: &str) {
    explain_absent(out, process);
    for stream in seen.streams {
        if let Some(source) = stream.source {
            let Some(found) = out.take_made(process_of(alloc, stream)) else {
                return;
            };
            show_join(out, source.name, found.as_deref());
        }
    }
    advise_absent(out);
}

/// Which other events are shown beside one whose message has the fault of this word.
fn others_of(word: MessageWord) -> Others<'static> {
    match word {
        MessageWord::SendTwice => Others {
            field: "send",
            said: "It is sent here too. ",
        },
        MessageWord::SelfMessage | MessageWord::Orphan => senders(),
        MessageWord::ReceivedTwice => Others {
            field: "recv",
            said: "It is received here too. ",
        },
    }
}

/// The event that sends a message.
fn senders() -> Others<'static> {
    Others {
        field: "send",
        said: "It is sent here. ",
    }
}

/// Shows another event of a stream that sends or receives this message, with what was noted of it. It gives whether
/// there is one.
fn put_other(
    out: &mut Text,
    alloc: Global,
    seen: Seen<'_>,
    source: &Source<'_>,
    others: Others<'_>,
    id: &str,
    but: u64,
) -> bool {
    let Some(number) = show_other(out, alloc, source, others, id, but) else {
        return false;
    };
    if let Some(Some(process)) = out.take_made(joined_name(alloc, source.bytes)) {
        let process = process.as_str();
        put_note(out, seen.notes, EventName { process, number });
    }
    true
}

/// Shows the other events that send or receive this message.
fn put_others(
    out: &mut Text,
    alloc: Global,
    seen: Seen<'_>,
    others: Others<'_>,
    id: &str,
    but: (usize, u64),
) {
    for (place, stream) in seen.streams.iter().enumerate() {
        if let Some(source) = stream.source {
            let number = if place == but.0 { but.1 } else { 0 };
            let _ = put_other(out, alloc, seen, &source, others, id, number);
        }
    }
}

/// Shows the event of a message that is refused, and the others with its id.
fn put_event(
    out: &mut Text,
    alloc: Global,
    seen: Seen<'_>,
    event: EventName<'_>,
    word: MessageWord,
) {
    let Some(Some((place, _, source))) = out.take_made(stream_of(alloc, seen, event.process)) else {
        return;
    };
    show_event(out, &source, event);
    put_note(out, seen.notes, event);
    if word == MessageWord::Orphan {
        return;
    }
    let Some(Some(id)) = out.take_made(message_of(alloc, source.bytes, event.number)) else {
        return;
    };
    let others = others_of(word);
    // A process that receives a message twice has that fault in either version, whoever else receives it.
    if word == MessageWord::ReceivedTwice
        && put_other(out, alloc, seen, &source, others, &id, event.number)
    {
        return;
    }
    put_others(out, alloc, seen, others, &id, (place, event.number));
}

/// Shows an event of a causal cycle, and where its message is sent.
fn put_step(out: &mut Text, alloc: Global, seen: Seen<'_>, event: EventName<'_>) {
    let Some(Some((place, _, source))) = out.take_made(stream_of(alloc, seen, event.process)) else {
        show_step(out, alloc, None, event);
        return;
    };
    show_step(out, alloc, Some(&source), event);
    put_note(out, seen.notes, event);
    let Some(found) = out.take_made(message_of(alloc, source.bytes, event.number)) else {
        return;
    };
    match found {
        Some(id) => put_others(out, alloc, seen, senders(), &id, (place, 0)),
        None => (),
    }
}

/// Explains a causal cycle.
fn put_cycle(out: &mut Text, alloc: Global, seen: Seen<'_>, places: &[(String, u64)]) {
    explain_cycle(out);
    for (process, number) in places.iter().take(SHOWN_EVENTS) {
        let event = EventName {
            process: process.as_str(),
            number: *number,
        };
        put_step(out, alloc, seen, event);
    }
    advise_cycle(out);
}

/// Explains why an event's message is refused.
fn put_message(
    out: &mut Text,
    alloc: Global,
    seen: Seen<'_>,
    event: EventName<'_>,
    word: MessageWord,
) {
    explain_message(out, event, word);
    put_event(out, alloc, seen, event, word);
    advise_messages(out, word);
}

/// Explains why a session is refused, by what was read of it. Nothing is said of a word that no report has.
pub fn explain_refusal(out: &mut Text, alloc: Global, seen: Seen<'_>, refusal: &Refusal) {
    match refusal {
        Refusal::Spec(word) => match seen.document_word(word) {
            Some(word) => put_document(out, alloc, seen, word),
            None => (),
        },
        Refusal::Predicate { k, word, at } => match PredicateWord::of(word) {
            Some(word) => {
                let (k, at) = (*k, *at);
                put_predicate(out, alloc, seen, PredicateFault { k, word, at });
            }
            None => (),
        },
        Refusal::Streams => explain_streams(out, seen.run_limit.is_some()),
        Refusal::Stream { stream, line, word } => match seen.stream_word(word) {
            Some(word) => {
                let (stream, line) = (*stream, *line);
                put_stream(out, alloc, seen, StreamFault { stream, line, word });
            }
            None => (),
        },
        Refusal::Absent(name) => put_absent(out, alloc, seen, name),
        Refusal::Match { word, name, number } => match MessageWord::of(word) {
            Some(word) => {
                let (process, number) = (name.as_str(), *number);
                put_message(out, alloc, seen, EventName { process, number }, word);
            }
            None => (),
        },
        Refusal::Cycle(places) => put_cycle(out, alloc, seen, places),
    }
}
