//! What is a name.
ghost use Rattle.def_format.specs.Names.{is_in_word, is_keyword, is_letter, is_name, is_word};
ghost use Rattle.std.specs.List.{list_all};
ghost use Rattle.std.specs.Prelude.{◌≡◌};

use def_format::NAME_BYTE_LIMIT;

/// Whether the byte is a letter or `_`, with which a word can begin.
pub(crate) fn is_letter(byte: u8) -> bool
    ensures { result ≡ is_letter byte }
{
    byte.is_ascii_alphabetic() || byte == b'_'
}

/// Whether the byte can stand in a word.
pub(crate) fn is_in_word(byte: u8) -> bool
    ensures { result ≡ is_in_word byte }
{
    is_letter(byte) || byte.is_ascii_digit()
}

fn are_in_word(bytes: &[u8]) -> bool
    ensures { result ≡ list_all is_in_word bytes.now }
{
    bytes.iter().all(|byte| is_in_word(*byte))
}

fn is_word(bytes: &[u8]) -> bool
    ensures { result ≡ is_word bytes.now }
{
    match bytes {
        [first, rest @ ..] => is_letter(*first) && are_in_word(rest),
        [] => false,
    }
}

fn is_keyword(bytes: &[u8]) -> bool
    ensures { result ≡ is_keyword bytes.now }
{
    matches!(bytes, b"and" | b"or" | b"not" | b"true" | b"false")
}

/// Whether the bytes are a name: a letter or `_` and then letters, digits and `_`, few enough, and no word of the
/// predicate language.
pub fn is_name(bytes: &[u8]) -> bool
    ensures { result ≡ is_name bytes.now }
{
    is_word(bytes) && bytes.len() <= NAME_BYTE_LIMIT && !is_keyword(bytes)
}
