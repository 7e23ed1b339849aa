//! Finds what may stand at a place of a predicate's text, by trying it.
use app_text::Text;
use pd_pred::{Names, Pred, PredErrorKind};
use std::alloc::{AllocError, Global};

/// What is tried, and what is said of it.
const TRIED: [(&str, &str); 12] = [
    ("and", "`and`"),
    ("or", "`or`"),
    ("not", "`not`"),
    ("(", "`(`"),
    (")", "`)`"),
    ("true", "`true` or `false`"),
    ("1", "a whole number"),
    (".", "`.` and a variable"),
    ("==", "`==` or another comparison"),
    ("+", "`+`"),
    ("-", "`-`"),
    ("*", "`*`"),
];

/// A text that begins so, goes on with a space and this token, and ends there.
fn joined(alloc: Global, begin: &str, token: &str) -> Result<String, AllocError> {
    let mut text = String::from_str(alloc, begin)?;
    text.push_str(" ")?;
    text.push_str(token)?;
    Ok(text)
}

/// Whether some predicate begins with this text and then the token.
///
/// # Errors
/// Out of memory.
pub(crate) fn may_follow(
    alloc: Global,
    names: &Names,
    begin: &str,
    token: &str,
) -> Result<bool, AllocError> {
    let text = joined(alloc, begin, token)?;
    match Pred::parse(alloc, names, &text) {
        Ok(_) => Ok(true),
        Err(error) => match error.kind {
            PredErrorKind::Memory => Err(AllocError),
            PredErrorKind::Expected => Ok(error.at > begin.len().saturating_add(2) as u64),
            PredErrorKind::UnknownName | PredErrorKind::Depth => Ok(true),
            PredErrorKind::Long | PredErrorKind::Character | PredErrorKind::Number => Ok(false),
        },
    }
}

/// Puts a part of a list, after a comma if it isn't the first.
fn say_part(out: &mut Text, is_first: bool, part: &str) {
    out.say(if is_first { "Expected here: " } else { ", " });
    out.say(part);
}

/// Whether the last byte that is no space or tab is a dot.
fn ends_with_dot(text: &str) -> bool {
    for byte in text.as_bytes().iter().rev() {
        if *byte != b' ' && *byte != b'\t' {
            return *byte == b'.';
        }
    }
    false
}

/// Says which tokens may stand at a place of a predicate's text, if the text before it begins a predicate.
pub(crate) fn say_expected_tokens(
    out: &mut Text,
    alloc: Global,
    names: &Names,
    text: &str,
    place: usize,
) {
    let begin = text.as_bytes().get(..place).unwrap_or(text.as_bytes());
    let Ok(begin) = str::from_utf8(begin) else {
        return;
    };
    let mut is_first = true;
    for (token, said) in TRIED {
        if out.take_made(may_follow(alloc, names, begin, token)) == Some(true) {
            say_part(out, is_first, said);
            is_first = false;
        }
    }
    if out.take_made(may_follow(alloc, names, begin, "a")) == Some(true) {
        let named = if ends_with_dot(begin) {
            "the name of a variable"
        } else {
            "a variable with its process, as a.x"
        };
        say_part(out, is_first, named);
        is_first = false;
    }
    if Pred::parse(alloc, names, begin).is_ok() {
        say_part(out, is_first, "the end");
        is_first = false;
    }
    out.say(if is_first { "" } else { ".\n" });
}
