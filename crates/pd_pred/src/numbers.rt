//! The numbers that digits write.
ghost use Rattle.def_format.specs.PredicateTexts as format;
ghost use Rattle.def_format.specs.PredicateTexts.{NumbersFit};
ghost use Rattle.def_format.specs.Tokens.{number_from};
ghost use Rattle.pd_pred.specs.Numbers.{IsFirstTooLarge};
ghost use Rattle.pd_pred.specs.Tokens.{lexed_view, token_view};
ghost use Rattle.std.specs.Prelude.{◌≡◌, ◌<◌, ◌-◌, ◌^◌, nat_lt, MatchOption};

use super::token::{Placed, Token};

/// The greatest number in a text.
const MAX_NUMBER: u64 = 9_223_372_036_854_775_807;

/// The greatest number with a `*` after it.
const MAX_FACTOR: u64 = 2_147_483_647;

/// What a digit counts for.
fn digit_value(digit: u8) -> u8
    ensures { result ≡ digit - 48 }
{
    digit.saturating_sub(b'0')
}

/// The number that the digits write.
pub(crate) fn number_of(digits: &str) -> u64
    requires { number_from 0 digits.now < 2 ^ 64 }
    ensures { result ≡ number_from 0 digits.now }
{
    let mut number = 0;
    for digit in digits.as_bytes() {
        number = 10 * number + u64::from(digit_value(*digit));
    }
    number
}

/// Whether the digits, of which there may be any number, write a number over the limit.
fn exceeds(digits: &str, limit: u64) -> bool
    ensures { result ≡ nat_lt limit (number_from 0 digits.now) }
{
    let mut number = 0u128;
    for digit in digits.as_bytes() {
        number = 10 * number + u128::from(digit_value(*digit));
        if number > u128::from(limit) {
            return true;
        }
    }
    false
}

fn begins_with_star(tokens: &[Placed<'_>]) -> bool
    ensures { result ≡ format.begins_with_star (lexed_view tokens.now) }
{
    match tokens.first() {
        Some(first) => matches!(first.token, Token::Star),
        None => false,
    }
}

/// Whether the token is a number too large for its place, which these tokens follow.
fn is_too_large(token: Token<'_>, after: &[Placed<'_>]) -> bool
    ensures { result ≡ format.is_too_large (token_view token.entry) (lexed_view after.now) }
{
    match token {
        Token::Digits(digits) => {
            exceeds(digits, MAX_NUMBER) || exceeds(digits, MAX_FACTOR) && begins_with_star(after)
        }
        _ => false,
    }
}

/// The first byte of the first number that is too large, counted from 1.
pub(crate) fn first_too_large(tokens: &[Placed<'_>]) -> Option<u64>
    ensures { MatchOption result (NumbersFit (lexed_view tokens.now)) (IsFirstTooLarge (lexed_view tokens.now)) }
{
    for (i, placed) in tokens.iter().enumerate() {
        if is_too_large(placed.token, &tokens[i + 1..]) {
            return Some(placed.at);
        }
    }
    None
}
