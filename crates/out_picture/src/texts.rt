//! Texts of a length.
ghost use Rattle.out_picture.specs.Pictures.{shortened, shown_value, text_at, texts_view};
ghost use Rattle.std.specs.Prelude.{◌≡◌, ◌≤◌, ◌++◌, IfOk, OnOk, decimal, string_bytes};

use std::alloc::{AllocError, Global};

/// The text, or if it has more bytes than the limit, the characters of it that fit before three dots, and the dots.
pub(crate) fn shortened(alloc: Global, text: &str, limit: usize) -> Result<String, AllocError>
    requires { 3 ≤ limit }
    ensures { IfOk result (λ short. string_bytes short ≡ shortened limit text.now) }
{
    if text.len() <= limit {
        return String::from_str(alloc, text);
    }
    let kept = text.floor_char_boundary(limit - 3);
    let mut short = String::from_str(alloc, &text[..kept])?;
    short.push_str("...")?;
    Ok(short)
}

/// What is shown of the values of a process's variables.
pub(crate) fn shown_value(alloc: Global, text: &str) -> Result<String, AllocError>
    ensures { IfOk result (λ short. string_bytes short ≡ shown_value text.now) }
{
    shortened(alloc, text, 80)
}

/// The text with this number, counted from 0, and no text past the end.
pub(crate) fn text_at(texts: &[String], number: usize) -> &str
    ensures { result.now ≡ text_at (texts_view texts.now) number }
{
    match texts.get(number) {
        Some(text) => text.as_str(),
        None => "",
    }
}

/// Appends words.
pub(crate) fn push_words(text: &mut String, words: &str) -> Result<(), AllocError>
    ensures { OnOk result (string_bytes text.new ≡ string_bytes text.old ++ words.now) }
{
    text.push_str(words)
}

/// Appends a number in decimal digits.
pub(crate) fn push_decimal(alloc: Global, text: &mut String, number: u64) -> Result<(), AllocError>
    ensures { OnOk result (string_bytes text.new ≡ string_bytes text.old ++ decimal number) }
{
    let digits = format!(in alloc; "{number}")?;
    text.push_str(&digits)
}
