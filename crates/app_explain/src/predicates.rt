//! Explains why the text of a predicate is refused.
use super::expected_tokens::say_expected_tokens;
use super::known_names::{name_at, say_processes, say_vars};
use super::predicate_hints::{say_meant_form, say_meant_name, say_meant_sign};
use super::words::PredicateWord;
use app_text::{Source, Text};
use pd_pred::Names;
use pd_spec::{Spec, SpecFault};
use serde_json::Value;
use std::alloc::{AllocError, Global};

/// The fault of a predicate's text, as a report has it.
#[derive(Clone, Copy)]
pub struct PredicateFault {
    /// The number of the predicate, counted from 1.
    pub k: u64,
    /// The word of the fault.
    pub word: PredicateWord,
    /// The byte at fault, counted from 1.
    pub at: u64,
}

/// What a word for a predicate's fault means.
fn meaning(word: PredicateWord) -> &'static str {
    match word {
        PredicateWord::Long => "it has more than 4,096 bytes.",
        PredicateWord::Character => "this sign has no meaning in a predicate.",
        PredicateWord::Number => "this number is too great.",
        PredicateWord::Expected =>
            "what stands here can't follow what stands before it, or the text ends too soon.",
        PredicateWord::UnknownName => "the session has nothing of this name.",
        PredicateWord::Depth => "this stands inside 64 others, which are parentheses or nots.",
    }
}

/// What is expected in place of what has this fault.
fn expected(word: PredicateWord) -> &'static str {
    match word {
        PredicateWord::Long => "at most 4,096 bytes.",
        PredicateWord::Character => {
            "words, whole numbers, spaces, and the signs ( ) . + - * == != < <= > and >=."
        }
        PredicateWord::Number => {
            "at most 9223372036854775807, and at most 2147483647 before a *."
        }
        PredicateWord::Depth => "at most 64 parentheses and nots that enclose each other.",
        PredicateWord::Expected | PredicateWord::UnknownName => "",
    }
}

/// What to do about this fault.
fn advice(word: PredicateWord) -> &'static str {
    match word {
        PredicateWord::Long => "ask in several predicates, or name fewer cases.",
        PredicateWord::Character =>
            "use == for equal, != for unequal, and the words and, or, not between comparisons.",
        PredicateWord::Number => "compare with a smaller number, or record a smaller one.",
        PredicateWord::Expected => "correct the text at that byte, or just before it.",
        PredicateWord::UnknownName => {
            "correct the name, or add it to the document. A variable is written with its process, as a.x."
        }
        PredicateWord::Depth =>
            "leave out parentheses that enclose no more than others do, and two nots that undo each other.",
    }
}

/// The predicate with this number, counted from 1, of the document: its name and its text.
fn predicate_at(document: &Value, k: u64) -> Option<(&str, &str)> {
    let Some(Value::Array(predicates)) = document.as_object()?.get("predicates") else {
        return None;
    };
    for (index, predicate) in predicates.iter().enumerate() {
        if (index as u64).saturating_add(1) == k {
            let fields = predicate.as_object()?;
            let name = fields.get("name")?.as_str()?;
            let text = fields.get("text")?.as_str()?;
            return Some((name, text));
        }
    }
    None
}

/// What the document says but for its predicates, width and version, if its processes are as they should be.
fn bare_document(alloc: Global, document: &Value) -> Result<Option<Spec>, AllocError> {
    let Some(fields) = document.as_object() else {
        return Ok(None);
    };
    let Some(processes) = fields.get("processes") else {
        return Ok(None);
    };
    let text = format!(in alloc;
        "{{\"processes\":{processes},\"predicates\":[{{\"name\":\"p\",\"text\":\"true\"}}]}}"
    )?;
    match Spec::read(alloc, text.as_bytes()) {
        Ok(spec) => Ok(Some(spec)),
        Err(SpecFault::Memory) => Err(AllocError),
        Err(_) => Ok(None),
    }
}

/// Says which names there are in place of the one at this place of a predicate's text.
fn say_known_names(out: &mut Text, alloc: Global, names: &Names, text: &str, place: usize) {
    let process = process_before(names, text.as_bytes(), place);
    match process {
        Some(process) => {
            out.say("Expected here: a variable of process ");
            out.say_name(name_at(names, process));
            out.say(", which has ");
            say_vars(out, names, process);
        }
        None => {
            out.say("Expected here: a process of the session, which has ");
            say_processes(out, names);
        }
    }
    out.say(".\n");
    say_meant_name(out, alloc, names, text, place, process);
}

/// The process whose variable should stand at this place of a text: the one before a dot.
fn process_before(names: &Names, text: &[u8], place: usize) -> Option<usize> {
    let before = without_spaces(text.get(..place)?);
    let (dot, before) = before.split_last()?;
    if *dot != b'.' {
        return None;
    }
    let before = without_spaces(before);
    for process in 0..names.processes() {
        if ends_with_word(before, names.name(process).as_bytes()) {
            return Some(process);
        }
    }
    None
}

/// The bytes without spaces and tabs at their end.
fn without_spaces(bytes: &[u8]) -> &[u8] {
    let mut rest = bytes;
    for _byte in 0..bytes.len() {
        match rest.split_last() {
            Some((b' ' | b'\t', before)) => rest = before,
            _ => return rest,
        }
    }
    rest
}

/// Whether the last word of the bytes is this one.
fn ends_with_word(bytes: &[u8], word: &[u8]) -> bool {
    let Some(start) = bytes.len().checked_sub(word.len()) else {
        return false;
    };
    let begins_there = match start.checked_sub(1) {
        None => true,
        Some(before) => match bytes.get(before) {
            Some(byte) => !(byte.is_ascii_alphanumeric() || *byte == b'_'),
            None => true,
        },
    };
    begins_there && bytes.ends_with(word)
}

/// Shows the text of a predicate with a caret at the fault, and says what is expected there.
fn show_text(
    out: &mut Text,
    alloc: Global,
    source: &Source<'_>,
    document: &Value,
    fault: PredicateFault,
) {
    let Some((_, text)) = predicate_at(document, fault.k) else {
        return;
    };
    let place = fault.at.saturating_sub(1) as usize;
    out.say("In ");
    out.say_shown(source.name.as_bytes());
    out.say(", byte ");
    out.say_number(fault.at);
    out.say(" of the predicate's text:\n");
    out.show_line(text.as_bytes(), Some(place));
    let Some(Some(spec)) = out.take_made(bare_document(alloc, document)) else {
        return;
    };
    match fault.word {
        PredicateWord::Expected => {
            say_expected_tokens(out, alloc, spec.names(), text, place);
            say_meant_form(out, alloc, spec.names(), text, place);
        }
        PredicateWord::UnknownName => say_known_names(out, alloc, spec.names(), text, place),
        PredicateWord::Character => say_meant_sign(out, text, place),
        _ => (),
    }
}

/// Explains why the text of a predicate is refused, where only the fault is known.
pub fn explain_predicate_word(out: &mut Text, fault: PredicateFault) {
    out.say("Predicate ");
    out.say_number(fault.k);
    out.say(" can't be read, at byte ");
    out.say_number(fault.at);
    out.say(" of its text: ");
    out.say(meaning(fault.word));
    out.say("\n");
    out.say_advice(expected(fault.word), advice(fault.word));
}

/// Explains why the text of a predicate of this document is refused: what the fault means, the text with a caret below
/// the place, what is expected there, and what to do.
pub fn explain_predicate(
    out: &mut Text,
    alloc: Global,
    source: &Source<'_>,
    fault: PredicateFault,
) {
    let Ok(document) = Value::from_slice(alloc, source.bytes) else {
        explain_predicate_word(out, fault);
        return;
    };
    out.say("Predicate ");
    out.say_number(fault.k);
    if let Some((name, _)) = predicate_at(&document, fault.k) {
        out.say(", ");
        out.say_name(name);
        out.say(",");
    }
    out.say(" can't be read: ");
    out.say(meaning(fault.word));
    out.say("\n");
    show_text(out, alloc, source, &document, fault);
    out.say_advice(expected(fault.word), advice(fault.word));
}
