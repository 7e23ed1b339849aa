//! Explains why a session document is refused.
use super::document_details::say_detail;
use super::file_kinds::{kind_of, said_of};
use super::json_faults::json_place;
use super::streams::joined_name;
use super::words::DocumentWord;
use app_text::{Source, Text, line_at};
use def_format::DOCUMENT_BYTE_LIMIT;
use serde_json::Value;
use std::alloc::{AllocError, Global};

/// What a word for a document's fault means.
fn meaning(word: DocumentWord) -> &'static str {
    match word {
        DocumentWord::Long => "The session document has more than 262,144 bytes.",
        DocumentWord::Json => "The session document isn't a JSON text.",
        DocumentWord::Shape => "The session document doesn't have the form of one.",
        DocumentWord::Processes => "The session document has no process, or more than 16.",
        DocumentWord::RunProcesses => "The run's document has no process, or more than 4,096.",
        DocumentWord::Name => "A name in the session document isn't one that is allowed.",
        DocumentWord::NameTwice =>
            "Two processes, or two predicates, of the session document have the same name.",
        DocumentWord::Vars =>
            "A process in the session document has too many variables, or one without a right initial value.",
        DocumentWord::Predicates => "The session document has no predicate, or more than 16.",
        DocumentWord::Width =>
            "The width in the session document isn't a whole number in its range.",
        DocumentWord::Version => "The version in the session document isn't one that is known.",
    }
}

/// What is expected in place of what has this fault.
fn expected(word: DocumentWord) -> &'static str {
    match word {
        DocumentWord::Long => "at most 262,144 bytes.",
        DocumentWord::Json =>
            "one JSON value in UTF-8, with no comments and no byte order mark, in which values stand no more than 127 \
deep in each other.",
        DocumentWord::Shape => {
            "an object of this form, and beside these two fields \"width\" and \"version\" alone:\n    \
{\"processes\":[{\"name\":\"a\",\"vars\":{\"x\":0}}],\n     \
\"predicates\":[{\"name\":\"p\",\"text\":\"a.x == 1\"}]}"
        }
        DocumentWord::Processes => "1 to 16 processes.",
        DocumentWord::RunProcesses => "1 to 4,096 processes.",
        DocumentWord::Name => {
            "an ASCII letter or _, then such letters, digits and _, at most 32 bytes in all, and none of and, or, not, \
true, false."
        }
        DocumentWord::NameTwice => "a name of its own for each process, and for each predicate.",
        DocumentWord::Vars => {
            "at most 16 variables of a process, each with a whole number from -9223372036854775808 to \
9223372036854775807, without a point or an exponent."
        }
        DocumentWord::Predicates => "1 to 16 predicates.",
        DocumentWord::Width => "a whole number from 1 to 65536, as \"width\":4096.",
        DocumentWord::Version =>
            "\"version\":1, or \"version\":2 for messages that several processes receive; without it, it is 1.",
    }
}

/// What to do about this fault.
fn advice(word: DocumentWord) -> &'static str {
    match word {
        DocumentWord::Long =>
            "leave out processes, variables and predicates that no question needs.",
        DocumentWord::Json => {
            "look for a comma, a quote or a bracket that is missing or too many; where a byte is marked, there or \
before it."
        }
        DocumentWord::Shape => "give each part the form of this example.",
        DocumentWord::Processes => {
            "name in \"processes\" each process that you record. Of a run of more than 16 make a session that has the \
same answers: monitor reduce, with the same document and streams, and --to FOLDER."
        }
        DocumentWord::RunProcesses =>
            "name in \"processes\" each process that you record, and none that you don't.",
        DocumentWord::Name => "choose another name, here and where predicates and streams use it.",
        DocumentWord::NameTwice => "rename one of the two.",
        DocumentWord::Vars =>
            "leave out the variables that no predicate names, and count in whole numbers, as 0 and 1 for no and yes.",
        DocumentWord::Predicates =>
            "put a question in \"predicates\", and at most 16; ask the others of the same streams in another run.",
        DocumentWord::Width =>
            "correct the number, or leave the field out: the width is 4,096 then.",
        DocumentWord::Version => "correct the number, or leave the field out.",
    }
}

/// Explains why a session document is refused by this word, where only that is known.
pub fn explain_document_word(out: &mut Text, word: DocumentWord) {
    out.say(meaning(word));
    out.say("\n");
    out.say_advice(expected(word), advice(word));
}

/// Shows where the document stops being a JSON text.
fn show_json(out: &mut Text, alloc: Global, source: &Source<'_>) {
    let Some(Some(found)) = out.take_made(json_place(alloc, source.bytes)) else {
        return;
    };
    if source.bytes.is_empty() {
        out.say("It is empty.\n");
        return;
    }
    if found.at_end {
        out.say("It ends before it is whole.\n");
    }
    let line = line_at(source.bytes, found.line);
    out.show_numbered(source, found.line, line, Some(found.place));
}

/// Whether these bytes are a session document, or were meant as one: a JSON object with a field of processes.
///
/// # Errors
/// Out of memory.
pub(crate) fn is_document(alloc: Global, bytes: &[u8]) -> Result<bool, AllocError> {
    if bytes.len() > DOCUMENT_BYTE_LIMIT {
        return Ok(false);
    }
    match Value::from_slice(alloc, bytes) {
        Ok(value) => match value.as_object() {
            Some(fields) => Ok(fields.contains_key("processes")),
            None => Ok(false),
        },
        Err(error) if error.is_memory() => Err(AllocError),
        Err(_) => Ok(false),
    }
}

/// Says what a file is that isn't a session document, and what to do, if that is clear. It gives whether it is.
fn say_other_file(out: &mut Text, alloc: Global, bytes: &[u8], word: DocumentWord) -> bool {
    if word != DocumentWord::Json && word != DocumentWord::Shape {
        return false;
    }
    if let Some(kind) = kind_of(bytes) {
        out.say(said_of(kind));
        return true;
    }
    let Some(Some(process)) = out.take_made(joined_name(alloc, bytes)) else {
        return false;
    };
    out.say("It is the stream of process ");
    out.say_name(&process);
    out.say(
        ", and no session document.\nWhat to do: give the document first, and then the streams.\n",
    );
    true
}

/// Explains why this session document is refused by this word: what it means, where in the document the fault is, as
/// far as that is sure, what is expected there, and what to do.
pub fn explain_document(out: &mut Text, alloc: Global, source: &Source<'_>, word: DocumentWord) {
    out.say(meaning(word));
    out.say("\n");
    match word {
        DocumentWord::Json => show_json(out, alloc, source),
        _ => match Value::from_slice(alloc, source.bytes) {
            Ok(value) => say_detail(out, alloc, source, &value, word),
            Err(_) => {}
        },
    }
    if say_other_file(out, alloc, source.bytes, word) {
        return;
    }
    out.say_advice(expected(word), advice(word));
}
