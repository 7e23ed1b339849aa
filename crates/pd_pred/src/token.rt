//! The tokens of a predicate's text.
use super::tree::{Comparison, Sign};

/// A token: a word and the digits of a number are slices of the text.
#[derive(Clone, Copy, Debug)]
pub(crate) enum Token<'a> {
    Word(&'a str),
    Digits(&'a str),
    OpenParen,
    CloseParen,
    Relates(Comparison),
    Signs(Sign),
    Star,
    Dot,
    End,
}

/// A token with the number of its first byte, counted from 1.
#[derive(Clone, Copy, Debug)]
pub(crate) struct Placed<'a> {
    pub(crate) at: u64,
    pub(crate) token: Token<'a>,
}
