//! What may stand next among a predicate's tokens.
ghost use Rattle.def_format.specs.PrefixWalk as walk;
ghost use Rattle.pd_pred.specs.States.{word_kind_view, mode_view, open_parens, side_view, parser_state_view};
ghost use Rattle.pd_pred.specs.Tokens.{token_view};
ghost use Rattle.std.specs.Prelude.{◌≡◌, ◌+◌, ◌<◌, ◌≤◌, IfSome};
ghost use Rattle.std.specs.Option.{option_map};

use super::token::Token;
use super::tree::Sign;

/// What a word can be in a predicate.
#[derive(Clone, Copy)]
pub(crate) enum WordKind {
    /// `not`
    Negates,
    /// `and` or `or`
    Joins,
    /// `true` or `false`
    Truth,
    /// Any other word.
    Name,
}

/// A side of a comparison.
#[derive(Clone, Copy)]
pub(crate) enum Side {
    Left,
    Right,
}

/// What may come next.
#[derive(Clone, Copy)]
pub(crate) enum Mode {
    /// A comparison, a `not`, a `(`, `true` or `false`.
    AtOperand,
    /// The sum on the right of a comparison.
    AtSum,
    /// A term, after a sign.
    AtTerm(Side),
    /// `*`, or what may follow a term.
    AfterNumber(Side),
    /// The name of a process, after `*`.
    AfterStar(Side),
    /// The dot after the name of a process.
    AfterName(Side),
    /// The name of a variable.
    AfterDot(Side),
    /// A sign, on the left a comparison sign, and on the right what may follow an operand.
    AfterTerm(Side),
    /// `and`, `or`, `)` or the end.
    AfterOperand,
}

/// Where a reader of tokens is.
#[derive(Clone, Copy)]
pub(crate) enum State {
    /// In a predicate, inside this many open parentheses.
    Inside { mode: Mode, parens: usize },
    /// After the end.
    AtEnd,
}

/// What this word is.
pub(crate) fn word_kind(word: &str) -> WordKind
    ensures { word_kind_view result ≡ walk.word_kind word.now }
{
    match word {
        "and" | "or" => WordKind::Joins,
        "not" => WordKind::Negates,
        "true" | "false" => WordKind::Truth,
        _ => WordKind::Name,
    }
}

/// The state after the token, if the token may stand there.
pub(crate) fn step(state: State, token: Token<'_>) -> Option<State>
    requires { open_parens (parser_state_view state) < usize.MAX }
    ensures value { option_map parser_state_view result ≡ walk.step (parser_state_view state) (token_view token.entry) }
    ensures bound { IfSome result
        (λ later. open_parens (parser_state_view later) ≤ open_parens (parser_state_view state) + 1) }
{
    let State::Inside { mode, parens } = state else {
        return None;
    };
    match mode {
        Mode::AtOperand => at_operand(parens, token),
        Mode::AtSum => at_sum(parens, token),
        Mode::AtTerm(side) => at_term(side, parens, token),
        Mode::AfterNumber(side) => after_number(side, parens, token),
        Mode::AfterStar(side) => at_name(Mode::AfterName(side), parens, token),
        Mode::AfterName(side) => at_dot(side, parens, token),
        Mode::AfterDot(side) => at_name(Mode::AfterTerm(side), parens, token),
        Mode::AfterTerm(side) => after_term(side, parens, token),
        Mode::AfterOperand => after_operand(parens, token),
    }
}

fn at_operand(parens: usize, token: Token<'_>) -> Option<State>
    requires { parens < usize.MAX }
    ensures value { option_map parser_state_view result ≡ walk.operand_next parens (token_view token.entry) }
    ensures bound { IfSome result (λ later. open_parens (parser_state_view later) ≤ parens + 1) }
{
    let (mode, parens) = match token {
        Token::Word(word) => match word_kind(word) {
            WordKind::Negates => (Mode::AtOperand, parens),
            WordKind::Truth => (Mode::AfterOperand, parens),
            WordKind::Name => (Mode::AfterName(Side::Left), parens),
            WordKind::Joins => return None,
        },
        Token::Digits(_) => (Mode::AfterNumber(Side::Left), parens),
        Token::OpenParen => (Mode::AtOperand, parens + 1),
        Token::Signs(Sign::Minus) => (Mode::AtTerm(Side::Left), parens),
        _ => return None,
    };
    Some(State::Inside { mode, parens })
}

fn at_sum(parens: usize, token: Token<'_>) -> Option<State>
    ensures value { option_map parser_state_view result ≡ walk.sum_next parens (token_view token.entry) }
    ensures bound { IfSome result (λ later. open_parens (parser_state_view later) ≤ parens) }
{
    match token {
        Token::Signs(Sign::Minus) => Some(State::Inside {
            mode: Mode::AtTerm(Side::Right),
            parens,
        }),
        _ => at_term(Side::Right, parens, token),
    }
}

fn at_term(side: Side, parens: usize, token: Token<'_>) -> Option<State>
    ensures value { option_map parser_state_view result
        ≡ walk.term_next (side_view side) parens (token_view token.entry) }
    ensures bound { IfSome result (λ later. open_parens (parser_state_view later) ≤ parens) }
{
    match token {
        Token::Digits(_) => Some(State::Inside {
            mode: Mode::AfterNumber(side),
            parens,
        }),
        _ => at_name(Mode::AfterName(side), parens, token),
    }
}

fn after_number(side: Side, parens: usize, token: Token<'_>) -> Option<State>
    ensures value { option_map parser_state_view result
        ≡ walk.after_number_next (side_view side) parens (token_view token.entry) }
    ensures bound { IfSome result (λ later. open_parens (parser_state_view later) ≤ parens) }
{
    match token {
        Token::Star => Some(State::Inside {
            mode: Mode::AfterStar(side),
            parens,
        }),
        _ => after_term(side, parens, token),
    }
}

/// A name leads to the mode, and nothing else does.
fn at_name(mode: Mode, parens: usize, token: Token<'_>) -> Option<State>
    ensures value { option_map parser_state_view result
        ≡ walk.name_next (mode_view mode) parens (token_view token.entry) }
    ensures bound { IfSome result (λ later. open_parens (parser_state_view later) ≤ parens) }
{
    match token {
        Token::Word(word) => match word_kind(word) {
            WordKind::Name => Some(State::Inside { mode, parens }),
            _ => None,
        },
        _ => None,
    }
}

fn at_dot(side: Side, parens: usize, token: Token<'_>) -> Option<State>
    ensures value { option_map parser_state_view result
        ≡ walk.dot_next (side_view side) parens (token_view token.entry) }
    ensures bound { IfSome result (λ later. open_parens (parser_state_view later) ≤ parens) }
{
    match token {
        Token::Dot => Some(State::Inside {
            mode: Mode::AfterDot(side),
            parens,
        }),
        _ => None,
    }
}

fn after_term(side: Side, parens: usize, token: Token<'_>) -> Option<State>
    ensures value { option_map parser_state_view result
        ≡ walk.after_term_next (side_view side) parens (token_view token.entry) }
    ensures bound { IfSome result (λ later. open_parens (parser_state_view later) ≤ parens) }
{
    match (token, side) {
        (Token::Signs(_), _) => Some(State::Inside {
            mode: Mode::AtTerm(side),
            parens,
        }),
        (Token::Relates(_), Side::Left) => Some(State::Inside {
            mode: Mode::AtSum,
            parens,
        }),
        (_, Side::Left) => None,
        (_, Side::Right) => after_operand(parens, token),
    }
}

fn after_operand(parens: usize, token: Token<'_>) -> Option<State>
    ensures value { option_map parser_state_view result
        ≡ walk.after_operand_next parens (token_view token.entry) }
    ensures bound { IfSome result (λ later. open_parens (parser_state_view later) ≤ parens) }
{
    match token {
        Token::Word(word) => match word_kind(word) {
            WordKind::Joins => Some(State::Inside {
                mode: Mode::AtOperand,
                parens,
            }),
            _ => None,
        },
        Token::CloseParen if parens > 0 => Some(State::Inside {
            mode: Mode::AfterOperand,
            parens: parens - 1,
        }),
        Token::End if parens == 0 => Some(State::AtEnd),
        _ => None,
    }
}
