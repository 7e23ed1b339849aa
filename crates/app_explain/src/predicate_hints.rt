//! Says what may have been meant where the text of a predicate is refused.
use super::expected_tokens::may_follow;
use super::known_names::name_at;
use super::near_names::{process_texts, say_near, say_owners, var_texts};
use app_text::Text;
use pd_pred::Names;
use std::alloc::{AllocError, Global};

/// The words of predicates.
const WORDS: [&str; 5] = ["and", "or", "not", "true", "false"];

/// What is said of values that aren't whole numbers.
const VALUES: &str =
    "A value is a whole number: 0 and 1 stand for no and yes, thousandths for a fraction.\n";

/// The bytes of a text from this place on.
fn rest_at(text: &str, place: usize) -> &[u8] {
    text.as_bytes().get(place..).unwrap_or(&[])
}

/// The bytes of a text before this place.
fn before_at(text: &str, place: usize) -> &[u8] {
    text.as_bytes().get(..place).unwrap_or(&[])
}

/// The word at the start of these bytes: letters, digits and `_` of ASCII.
fn first_word(bytes: &[u8]) -> &str {
    let mut length = 0usize;
    for byte in bytes {
        if !(byte.is_ascii_alphanumeric() || *byte == b'_') {
            break;
        }
        length = length.saturating_add(1);
    }
    str::from_utf8(bytes.get(..length).unwrap_or(&[])).unwrap_or("")
}

/// What may have been meant by the sign at the start of these bytes; empty if that isn't clear.
fn sign_for(bytes: &[u8]) -> &'static str {
    if bytes.starts_with(b"&") {
        "Did you mean `and`?\n"
    } else if bytes.starts_with(b"|") {
        "Did you mean `or`?\n"
    } else if bytes.starts_with(b"!") {
        "Did you mean `not`?\n"
    } else if bytes.starts_with(b"=>") {
        "Did you mean `>=`?\n"
    } else if bytes.starts_with(b"=<") {
        "Did you mean `<=`?\n"
    } else if bytes.starts_with(b"=") {
        "Did you mean `==`?\n"
    } else if bytes.starts_with(b"\"") || bytes.starts_with(b"'") {
        "Nothing stands in quotes: a name has none, and a value is a whole number, as 0 and 1 for no and yes.\n"
    } else {
        ""
    }
}

/// Says what may have been meant by a sign that has no meaning, at this place of a text.
pub(crate) fn say_meant_sign(out: &mut Text, text: &str, place: usize) {
    out.say(sign_for(rest_at(text, place)));
}

/// Whether a comparison's sign stands at the start of these bytes.
fn is_comparison(bytes: &[u8]) -> bool {
    bytes.starts_with(b"<")
        || bytes.starts_with(b">")
        || bytes.starts_with(b"==")
        || bytes.starts_with(b"!=")
}

/// Whether a digit ends these bytes.
fn ends_with_digit(bytes: &[u8]) -> bool {
    match bytes.split_last() {
        Some((last, _)) => last.is_ascii_digit(),
        None => false,
    }
}

/// What may have been meant by what stands between these bytes, the second of which can't follow; empty if that isn't
/// clear.
fn form_for(before: &[u8], rest: &[u8]) -> &'static str {
    if before.ends_with(b"<") && rest.starts_with(b">") {
        "Did you mean `!=`?\n"
    } else if rest.starts_with(b"*") {
        "A product is a whole number, `*` and a variable, as 2 * a.x: no variable is multiplied by another.\n"
    } else if rest.starts_with(b".") && ends_with_digit(before) {
        VALUES
    } else {
        ""
    }
}

/// Says which word of predicates is near to this one, in capital letters too, if it may follow a text.
fn say_near_word(out: &mut Text, alloc: Global, names: &Names, begin: &str, word: &str) {
    let Some(word) = out.take_made(word.to_ascii_lowercase(alloc)) else {
        return;
    };
    for known in WORDS {
        let may_follow = out.take_made(may_follow(alloc, names, begin, known)) == Some(true);
        if may_follow && say_near(out, alloc, &word, &[known], "") {
            return;
        }
    }
}

/// Says what may have been meant by what can't follow what stands before it, at this place of a text.
pub(crate) fn say_meant_form(
    out: &mut Text,
    alloc: Global,
    names: &Names,
    text: &str,
    place: usize,
) {
    let (before, rest) = (before_at(text, place), rest_at(text, place));
    let form = form_for(before, rest);
    if !form.is_empty() {
        out.say(form);
        return;
    }
    let begin = str::from_utf8(before).unwrap_or("");
    if is_comparison(rest) && out.take_made(may_follow(alloc, names, begin, "and")) == Some(true) {
        out.say("A comparison has two sides: for 1 < a.x < 3 write 1 < a.x and a.x < 3.\n");
        return;
    }
    let word = first_word(rest);
    let is_truth = word == "true" || word == "false";
    if is_truth && out.take_made(may_follow(alloc, names, begin, "1")) == Some(true) {
        out.say(VALUES);
        return;
    }
    say_near_word(out, alloc, names, begin, word);
}

/// Whether the first byte that is no space or tab is a dot.
fn begins_with_dot(bytes: &[u8]) -> bool {
    for byte in bytes {
        if *byte != b' ' && *byte != b'\t' {
            return *byte == b'.';
        }
    }
    false
}

/// The name of a process, with the dot before a variable.
fn dotted(alloc: Global, process: &str) -> Result<String, AllocError> {
    let mut text = String::from_str(alloc, process)?;
    text.push_str(".")?;
    Ok(text)
}

/// Says which variable may have been meant by a name that the process before it has not.
fn say_meant_var(out: &mut Text, alloc: Global, names: &Names, process: usize, word: &str) {
    let Some(vars) = out.take_made(var_texts(alloc, names, process)) else {
        return;
    };
    let Some(before) = out.take_made(dotted(alloc, name_at(names, process))) else {
        return;
    };
    if !say_near(out, alloc, word, &vars, &before) {
        let _ = say_owners(out, names, word);
    }
}

/// Says what may have been meant by a name that there isn't, at this place of a text: of a variable if the process
/// before it is known, and else of a process, or of a variable without its process.
pub(crate) fn say_meant_name(
    out: &mut Text,
    alloc: Global,
    names: &Names,
    text: &str,
    place: usize,
    process: Option<usize>,
) {
    let rest = rest_at(text, place);
    let word = first_word(rest);
    if let Some(process) = process {
        say_meant_var(out, alloc, names, process, word);
        return;
    }
    if begins_with_dot(rest.get(word.len()..).unwrap_or(&[])) {
        let Some(processes) = out.take_made(process_texts(alloc, names)) else {
            return;
        };
        let _ = say_near(out, alloc, word, &processes, "");
        return;
    }
    if !say_owners(out, names, word) {
        let begin = str::from_utf8(before_at(text, place)).unwrap_or("");
        say_near_word(out, alloc, names, begin, word);
    }
}
