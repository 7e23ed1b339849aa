//! Words, and what stands between others.
ghost use Rattle.def_format.specs.Names.{is_in_word};
ghost use Rattle.def_format.specs.Reports.{Fits, IsName};
ghost use Rattle.pd_report.specs.Cuts.{IsCut, Lacks};
ghost use Rattle.pd_report.specs.Reading.{IsFoundAs, IsReadAs};
ghost use Rattle.std.specs.List.{list_all};
ghost use Rattle.std.specs.Prelude.{◌≡◌, ◌↔◌, false, true, MatchOption, decimal, string_bytes, IfOk, IsTrue};

use itoa::Buffer;
use pd_pred::is_name;
use std::alloc::{AllocError, Global};

/// What stands before the first such byte, and what stands after it.
pub(crate) fn cut_at(bytes: &[u8], at: u8) -> Option<(&[u8], &[u8])>
    ensures { MatchOption result (Lacks at bytes.now) (λ cut. IsCut at bytes.now cut.0.now cut.1.now) }
{
    for (end, byte) in bytes.iter().enumerate() {
        if *byte == at {
            return Some((&bytes[..end], &bytes[end + 1..]));
        }
    }
    None
}

/// Whether the bytes are this text.
pub(crate) fn is(word: &[u8], text: &str) -> bool
    ensures yes { result ≡ true → word.now ≡ text.now }
    ensures no { result ≡ false → ¬ (word.now ≡ text.now) }
{
    word == text.as_bytes()
}

/// The text of letters and digits.
pub(crate) fn word_text(alloc: Global, word: &[u8]) -> Result<String, AllocError>
    requires { list_all is_in_word word.now ≡ true }
    ensures { IfOk result (λ text. string_bytes text ≡ word.now) }
{
    match str::from_utf8(word) {
        Ok(text) => String::from_str(alloc, text),
        Err(_) => unreachable!(),
    }
}

/// The name, if it is one.
pub(crate) fn name(alloc: Global, word: &[u8]) -> Result<Option<String>, AllocError>
    ensures { IsReadAs string_bytes (λ name. name) IsName word.now result }
{
    if !is_name(word) {
        return Ok(None);
    }
    Ok(Some(word_text(alloc, word)?))
}

/// The number of 64 bits, in digits with no zero before them.
pub(crate) fn number(word: &[u8]) -> Option<u64>
    ensures { IsFoundAs (λ n. n) decimal Fits word.now result }
{
    let Ok(text) = str::from_utf8(word) else {
        return None;
    };
    let Ok(number) = text.parse::<u64>() else {
        return None;
    };
    if is_decimal(word, number) {
        Some(number)
    } else {
        None
    }
}

/// Whether the word is this number.
fn is_decimal(word: &[u8], number: u64) -> bool
    ensures { IsTrue result ↔ (word.now ≡ decimal number) }
{
    let mut buffer = Buffer::new();
    word == buffer.format(number).as_bytes()
}
