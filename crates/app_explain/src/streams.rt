//! Explains why a stream is refused.
ghost use Rattle.app_explain.specs.Fields.{joined_name};
ghost use Rattle.std.specs.Option.{option_map};
ghost use Rattle.std.specs.Prelude.{◌≡◌, string_bytes, IfOk};

use super::documents::is_document;
use super::fields::text_in_line;
use super::file_kinds::{kind_of, said_of};
use super::known_names::{name_at, say_processes, say_vars};
use super::near_names::{process_texts, say_near, var_texts};
use super::record_details::{FIELDS, name_in_record, place_in_record};
use super::seen::SeenStream;
use super::words::StreamWord;
use app_text::{Source, Text, line_at, record_after};
use pd_pred::Names;
use std::alloc::{AllocError, Global};

/// The fault of a stream, as a report has it.
#[derive(Clone, Copy)]
pub struct StreamFault {
    /// The number of the stream, counted from 1.
    pub stream: u64,
    /// The number of its line, counted from 1.
    pub line: u64,
    /// The word of the fault.
    pub word: StreamWord,
}

/// What a word for a stream's fault means.
fn meaning(word: StreamWord) -> &'static str {
    match word {
        StreamWord::LineTooLong => "this line has more than 65,536 bytes.",
        StreamWord::StreamTooLong =>
            "the stream has more than 16,777,216 bytes before its end line.",
        StreamWord::Json => "this line isn't a JSON text.",
        StreamWord::Shape => "this line has none of the forms of a stream's lines.",
        StreamWord::Join => "the first line has to say whose stream it is, and no later one may.",
        StreamWord::UnknownProcess => "the session document has no process of this name.",
        StreamWord::UnknownVar => "the process has no variable of this name.",
        StreamWord::Value => "the value of a variable isn't a whole number.",
        StreamWord::MessageId => "the id of a message has no byte, or more than 64.",
        StreamWord::Events => "the process has more than 10,000 events.",
        StreamWord::RunEvents => "the process has more than 2,147,483,647 events.",
        StreamWord::Unended => "the stream ends without the line that ends it.",
        StreamWord::Read => "it can't be read to its end.",
        StreamWord::Taken => "an earlier stream is one of the same process.",
    }
}

/// What is expected in place of what has this fault.
pub(crate) fn expected(word: StreamWord) -> &'static str {
    match word {
        StreamWord::LineTooLong => "one event a line, in at most 65,536 bytes.",
        StreamWord::StreamTooLong => "at most 16,777,216 bytes.",
        StreamWord::Json => "one JSON object a line, in UTF-8, ended by a line feed.",
        StreamWord::Shape => {
            "{\"process\":\"a\"} first; then {}, {\"set\":{\"x\":1}}, {\"send\":\"id\"} or {\"recv\":\"id\"}, each \
also with \"set\"; and {\"end\":true} last."
        }
        StreamWord::Join =>
            "{\"process\":\"a\"} as the first line, with the name of the process, and nowhere else.",
        StreamWord::Value => {
            "a whole number from -9223372036854775808 to 9223372036854775807, without a point or an exponent."
        }
        StreamWord::MessageId => "a text of 1 to 64 bytes, as \"left-1\".",
        StreamWord::Events => "at most 10,000 events of a process.",
        StreamWord::RunEvents => "at most 2,147,483,647 events of a process.",
        StreamWord::Unended => "{\"end\":true} as the last line.",
        StreamWord::Taken => "one stream for each process.",
        StreamWord::UnknownProcess | StreamWord::UnknownVar | StreamWord::Read => "",
    }
}

/// What to do about this fault.
pub(crate) fn advice(word: StreamWord) -> &'static str {
    match word {
        StreamWord::LineTooLong => "look whether a line feed is missing between two events.",
        StreamWord::StreamTooLong | StreamWord::Events => {
            "make a session of it that has the same answers: monitor reduce, with the same document and streams, and \
--to FOLDER. Then judge FOLDER/session.json and FOLDER/*.stream."
        }
        StreamWord::Json =>
            "look how the line was written: two writers may share the file; or a crash cut it off, then put \
{\"end\":true} in its place.",
        StreamWord::RunEvents => "record fewer events of it, or end the recording sooner.",
        StreamWord::Shape => "have the recorder write one of these.",
        StreamWord::Join =>
            "have the recorder write that line once, before all others; for two runs, take two files.",
        StreamWord::UnknownProcess =>
            "correct the name in the stream, or add the process to the document.",
        StreamWord::UnknownVar =>
            "correct the name in the stream, or add the variable to the process in the document.",
        StreamWord::Value =>
            "record a whole number, as 0 and 1 for no and yes, or thousandths for a fraction.",
        StreamWord::MessageId => "give each message the name of its sender and a counter.",
        StreamWord::Unended => {
            "have the program end its recording when it ends; if it crashed, append that line to judge what came until \
then."
        }
        StreamWord::Read =>
            "look whether the file is there and may be read, or whether the connection broke off.",
        StreamWord::Taken =>
            "give each stream once, or correct the name of the process in its first line.",
    }
}

/// Whose stream it is: the name that its first record gives, if it does.
///
/// # Errors
/// Out of memory.
pub fn joined_name(alloc: Global, bytes: &[u8]) -> Result<Option<String>, AllocError>
    ensures { IfOk result (λ found. option_map string_bytes found ≡ joined_name bytes.now) }
{
    match record_after(bytes, 0) {
        Some(record) => text_in_line(alloc, record.bytes, "process"),
        None => Ok(None),
    }
}

/// Says which stream is refused, at which line, and why.
pub(crate) fn say_head(out: &mut Text, fault: StreamFault, file: &str, process: Option<&str>) {
    out.say("Stream ");
    say_refused(out, fault, file, process);
}

/// Says of the stream with this number that it is refused, at which line, and why.
pub(crate) fn say_refused(out: &mut Text, fault: StreamFault, file: &str, process: Option<&str>) {
    out.say_number(fault.stream);
    if !file.is_empty() {
        out.say(", ");
        out.say_shown(file.as_bytes());
        out.say(",");
    }
    if let Some(process) = process {
        out.say(" of process ");
        out.say_name(process);
        out.say(if file.is_empty() { "" } else { "," });
    }
    out.say(" is refused at line ");
    out.say_number(fault.line);
    out.say(": ");
    out.say(meaning(fault.word));
    out.say("\n");
}

/// Explains why the stream in the file of this name is refused, or in none if the name is empty, where only the fault
/// is known, and says in which order streams count.
pub fn explain_stream_word(out: &mut Text, fault: StreamFault, file: &str, order: &str) {
    say_head(out, fault, file, None);
    out.say(order);
    out.say_advice(expected(fault.word), advice(fault.word));
}

/// Explains why the stream in the file of this name is refused, and says more of why, in a sentence.
pub fn explain_stream_with(out: &mut Text, fault: StreamFault, file: &str, why: &str) {
    say_head(out, fault, file, None);
    if !why.is_empty() {
        out.say_shown(why.as_bytes());
        out.say(".\n");
    }
    out.say_advice(expected(fault.word), advice(fault.word));
}

/// Shows the line at fault, or the last one if the stream ended too soon.
fn show_fault(
    out: &mut Text,
    alloc: Global,
    names: &Names,
    source: &Source<'_>,
    fault: StreamFault,
) {
    if fault.word == StreamWord::Unended {
        if fault.line <= 1 {
            out.say("The stream is empty.\n");
            return;
        }
        out.say("Its last line is this one. ");
        let last = fault.line.saturating_sub(1);
        out.show_numbered(source, last, line_at(source.bytes, last), None);
        return;
    }
    if fault.word == StreamWord::StreamTooLong {
        return;
    }
    let line = line_at(source.bytes, fault.line);
    let process = match out.take_made(joined_name(alloc, source.bytes)) {
        Some(Some(name)) => names.find(&name),
        _ => None,
    };
    let Some(place) = out.take_made(place_in_record(alloc, names, process, line, fault.word)) else {
        return;
    };
    out.show_numbered(source, fault.line, line, place);
}

/// Says which processes or variables there are in place of a name that there isn't.
fn say_known(out: &mut Text, names: &Names, process: Option<usize>, word: StreamWord) {
    if word == StreamWord::UnknownProcess {
        out.say("Expected here: a process of the document, which has ");
        say_processes(out, names);
        out.say(".\n");
        return;
    }
    match process {
        Some(process) if word == StreamWord::UnknownVar => {
            out.say("Expected here: a variable of process ");
            out.say_name(name_at(names, process));
            out.say(", which has ");
            say_vars(out, names, process);
            out.say(".\n");
        }
        _ => (),
    }
}

/// Says which process is near to the one of this name, which there isn't.
fn say_near_process(out: &mut Text, alloc: Global, names: &Names, name: &str) {
    if let Some(known) = out.take_made(process_texts(alloc, names)) {
        let _ = say_near(out, alloc, name, &known, "");
    }
}

/// Says which variable of this process is near to the one of this name, which there isn't.
fn say_near_var(out: &mut Text, alloc: Global, names: &Names, process: usize, name: &str) {
    if let Some(known) = out.take_made(var_texts(alloc, names, process)) {
        let _ = say_near(out, alloc, name, &known, "");
    }
}

/// Says which field is near to the one of this name, if it is none.
fn say_near_field(out: &mut Text, alloc: Global, name: &str) {
    if !FIELDS.iter().any(|field| *field == name) {
        let _ = say_near(out, alloc, name, &FIELDS, "");
    }
}

/// Says which name is near to the one in this line that there isn't, or which field.
fn say_meant(
    out: &mut Text,
    alloc: Global,
    names: &Names,
    process: Option<usize>,
    line: &[u8],
    word: StreamWord,
) {
    let Some(Some(name)) = out.take_made(name_in_record(alloc, names, process, line, word)) else {
        return;
    };
    match (word, process) {
        (StreamWord::UnknownProcess, _) => say_near_process(out, alloc, names, &name),
        (StreamWord::UnknownVar, Some(process)) => {
            say_near_var(out, alloc, names, process, &name);
        }
        (StreamWord::Shape, _) => say_near_field(out, alloc, &name),
        _ => (),
    }
}

/// Says what there is in place of a name in this line that there isn't, and what may have been meant.
pub(crate) fn say_instead(
    out: &mut Text,
    alloc: Global,
    names: &Names,
    process: Option<&str>,
    line: &[u8],
    word: StreamWord,
) {
    let process = process.and_then(|name| names.find(name));
    say_known(out, names, process, word);
    say_meant(out, alloc, names, process, line, word);
}

/// Says what a file is that isn't a stream, and what to do, if that is clear. It gives whether it is.
fn say_other_file(out: &mut Text, alloc: Global, bytes: &[u8], word: StreamWord) -> bool {
    if word != StreamWord::Json && word != StreamWord::Shape {
        return false;
    }
    if let Some(kind) = kind_of(bytes) {
        out.say(said_of(kind));
        return true;
    }
    if out.take_made(is_document(alloc, bytes)) != Some(true) {
        return false;
    }
    out.say(
        "It is a session document, and no stream.\nWhat to do: give the document first, and then the streams.\n",
    );
    true
}

/// Explains why this stream is refused: what the fault means, the line with a caret below the place, as far as that is
/// sure, in which order streams count, what is expected there, and what to do.
pub fn explain_stream(
    out: &mut Text,
    alloc: Global,
    names: &Names,
    stream: SeenStream<'_>,
    order: &str,
    fault: StreamFault,
) {
    let Some(source) = stream.source else {
        explain_stream_word(out, fault, stream.file, order);
        return;
    };
    let Some(joined) = out.take_made(joined_name(alloc, source.bytes)) else {
        return;
    };
    let process = joined.as_deref();
    say_head(out, fault, stream.file, process);
    show_fault(out, alloc, names, &source, fault);
    let line = line_at(source.bytes, fault.line);
    say_instead(out, alloc, names, process, line, fault.word);
    out.say(order);
    if say_other_file(out, alloc, source.bytes, fault.word) {
        return;
    }
    out.say_advice(expected(fault.word), advice(fault.word));
}
