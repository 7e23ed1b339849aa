//! The tokens of a text.
ghost use Rattle.def_format.specs.Names as format;
ghost use Rattle.def_format.specs.Limits.{predicate_byte_limit};
ghost use Rattle.def_format.specs.Tokens as format_tokens;
ghost use Rattle.def_format.specs.Tokens.{AreTokens, BeginsNoToken, IsSpelling};
ghost use Rattle.pd_pred.specs.Lexing.{BeginsNoDouble, IsFirstToken, IsLexErrorOf, SkipsSpaces, SpellsNoToken};
ghost use Rattle.pd_pred.specs.Tokens.{lexed_view, token_view};
ghost use Rattle.std.specs.List.{prefix_len};
ghost use Rattle.std.specs.Prelude.{◌≡◌, ◌≤◌, ◌+◌, [], ◌∷◌, length, slice_index, IsTrue, IsFalse, IfOk, IfErr, MatchOption};

use super::name::{is_in_word, is_letter};
use super::token::{Placed, Token};
use super::tree::{Comparison, Sign};
use std::alloc::{AllocFailed, Global};

/// Why a text is no list of tokens.
#[derive(Clone, Copy, Debug, PartialEq, Eq)]
pub(crate) enum LexError {
    /// The byte with this number, from 1, begins no token and is neither space nor tab.
    Stray(u64),
    /// Memory ran out.
    Memory,
}

impl<T: Drop> From<AllocFailed<T>> for LexError {
    ghost use Rattle.std.specs.Prelude.{◌≡◌};
    ghost use Rattle.pd_pred.specs.declared.lexer.LexError.TheVariants.{Memory};

    ghost from_gives = { λ _ e. e ≡ Memory };

    fn from(_e: AllocFailed<T>) -> LexError {
        LexError::Memory
    }
}

fn is_space(byte: u8) -> bool
    ensures { result ≡ format_tokens.is_space byte }
{
    byte == b' ' || byte == b'\t'
}

/// How many spaces and tabs the text begins with.
fn spaces_len(text: &str) -> usize
    ensures { result ≡ prefix_len format_tokens.is_space text.now }
{
    text.as_bytes()
        .iter()
        .take_while(|byte| is_space(**byte))
        .count()
}

/// How many bytes of a word the text begins with.
fn word_len(text: &str) -> usize
    ensures { result ≡ prefix_len format.is_in_word text.now }
{
    text.as_bytes()
        .iter()
        .take_while(|byte| is_in_word(**byte))
        .count()
}

/// How many digits the text begins with.
fn digits_len(text: &str) -> usize
    ensures { result ≡ prefix_len format.is_digit text.now }
{
    text.as_bytes()
        .iter()
        .take_while(|byte| byte.is_ascii_digit())
        .count()
}

/// What follows the spaces and tabs that the text begins with.
fn skip_spaces(text: &str) -> &str
    ensures { SkipsSpaces text.now result.now }
{
    &text[spaces_len(text)..]
}

/// The word that the text begins with, and what follows it.
fn first_word(text: &str) -> (Token<'_>, &str)
    requires { IsTrue (format.is_letter (slice_index text.now 0)) }
    ensures { IsFirstToken text.now (token_view result.0) result.1.now }
{
    let (word, rest) = text.split_at(word_len(text));
    (Token::Word(word), rest)
}

/// The digits that the text begins with, and what follows them.
fn first_digits(text: &str) -> (Token<'_>, &str)
    requires { IsTrue (format.is_digit (slice_index text.now 0)) }
    ensures { IsFirstToken text.now (token_view result.0) result.1.now }
{
    let (digits, rest) = text.split_at(digits_len(text));
    (Token::Digits(digits), rest)
}

/// The symbol that this byte is.
fn single_symbol(byte: u8) -> Option<Token<'static>>
    requires no_letter { IsFalse (format.is_letter byte) }
    requires no_digit { IsFalse (format.is_digit byte) }
    ensures { MatchOption result (SpellsNoToken (byte ∷ [])) (λ token. IsSpelling (byte ∷ []) (token_view token)) }
{
    match byte {
        b'(' => Some(Token::OpenParen),
        b')' => Some(Token::CloseParen),
        b'<' => Some(Token::Relates(Comparison::IsLess)),
        b'>' => Some(Token::Relates(Comparison::IsGreater)),
        b'+' => Some(Token::Signs(Sign::Plus)),
        b'-' => Some(Token::Signs(Sign::Minus)),
        b'*' => Some(Token::Star),
        b'.' => Some(Token::Dot),
        _ => None,
    }
}

/// The symbol that these two bytes are.
fn double_symbol(first: u8, second: u8) -> Option<Token<'static>>
    requires no_letter { IsFalse (format.is_letter first) }
    requires no_digit { IsFalse (format.is_digit first) }
    ensures { MatchOption result (SpellsNoToken (first ∷ second ∷ [])) (λ token.
        IsSpelling (first ∷ second ∷ []) (token_view token)) }
{
    match (first, second) {
        (b'=', b'=') => Some(Token::Relates(Comparison::Equals)),
        (b'!', b'=') => Some(Token::Relates(Comparison::Differs)),
        (b'<', b'=') => Some(Token::Relates(Comparison::IsAtMost)),
        (b'>', b'=') => Some(Token::Relates(Comparison::IsAtLeast)),
        _ => None,
    }
}

/// The symbol of two bytes that the text begins with, and what follows it.
fn first_double(text: &str) -> Option<(Token<'_>, &str)>
    requires no_letter { IsFalse (format.is_letter (slice_index text.now 0)) }
    requires no_digit { IsFalse (format.is_digit (slice_index text.now 0)) }
    ensures { MatchOption result (BeginsNoDouble text.now) (λ found.
        IsFirstToken text.now (token_view found.0) found.1.now) }
{
    let &[first, second, ..] = text.as_bytes() else {
        return None;
    };
    let token = double_symbol(first, second)?;
    Some((token, &text[2..]))
}

/// The symbol of one byte that the text begins with, and what follows it.
fn first_single(text: &str) -> Option<(Token<'_>, &str)>
    requires no_letter { IsFalse (format.is_letter (slice_index text.now 0)) }
    requires no_digit { IsFalse (format.is_digit (slice_index text.now 0)) }
    requires no_double { BeginsNoDouble text.now }
    ensures { MatchOption result (BeginsNoToken text.now) (λ found.
        IsFirstToken text.now (token_view found.0) found.1.now) }
{
    let first = *text.as_bytes().first()?;
    let token = single_symbol(first)?;
    Some((token, &text[1..]))
}

/// The token that the text begins with, and what follows it.
fn first_token(text: &str) -> Option<(Token<'_>, &str)>
    ensures { MatchOption result (BeginsNoToken text.now) (λ found.
        IsFirstToken text.now (token_view found.0) found.1.now) }
{
    let first = *text.as_bytes().first()?;
    if is_letter(first) {
        Some(first_word(text))
    } else if first.is_ascii_digit() {
        Some(first_digits(text))
    } else if let Some(found) = first_double(text) {
        Some(found)
    } else {
        first_single(text)
    }
}

/// The number, from 1, of the byte of the text that begins this rest of it.
fn place_of(text: &str, rest: &str) -> u64
    requires short { length text.now ≤ predicate_byte_limit }
    requires inside { length rest.now ≤ length text.now }
    ensures { result + length rest.now ≡ length text.now + 1 }
{
    (text.len() - rest.len()) as u64 + 1
}

/// The tokens of a text, with the end as the last.
pub(crate) fn lex(alloc: Global, text: &str) -> Result<Vec<Placed<'_>>, LexError>
    requires { length text.now ≤ predicate_byte_limit }
    ensures ok { IfOk result (λ tokens. AreTokens text.now (lexed_view tokens.items)) }
    ensures err { IfErr result (λ error. IsLexErrorOf text.now error) }
{
    let mut tokens = Vec::new(alloc);
    let mut rest = skip_spaces(text);
    while let Some((token, others)) = first_token(rest) {
        let at = place_of(text, rest);
        tokens.push(Placed { at, token })?;
        rest = skip_spaces(others);
    }
    let at = place_of(text, rest);
    if !rest.is_empty() {
        return Err(LexError::Stray(at));
    }
    let token = Token::End;
    tokens.push(Placed { at, token })?;
    Ok(tokens)
}
