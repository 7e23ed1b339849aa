//! Which token of a predicate stands where it may not.
ghost use Rattle.def_format.specs.PredicateTexts.{opens, tokens_of};
ghost use Rattle.def_format.specs.PrefixWalk.{AtEnd, start, walk};
ghost use Rattle.def_format.specs.Tokens.{End, Token as FormatToken};
ghost use Rattle.pd_pred.specs.Placement.{
  IsFaultAt,
  IsFirstMisplaced,
  IsInNames,
  IsWellPlaced,
  Steps,
  first_position,
  position_view,
  process_after,
};
ghost use Rattle.pd_pred.specs.States.{open_parens, parser_state_view};
ghost use Rattle.pd_pred.specs.Tokens.{lexed_view, token_view};
ghost use Rattle.std.specs.Prelude.{◌≡◌, ◌+◌, ◌<◌, ◌≤◌, [], ◌∷◌, ◌++◌, List, Some, IfErr, IfSome, OnOk, IfNone};

use super::openers::Openers;
use super::state::{Mode, State, step};
use super::token::{Placed, Token};
use super::{Names, PredError, PredErrorKind};

/// The first misplaced token with its fault, if there is one.
pub(crate) fn first_misplaced(names: &Names, tokens: &[Placed<'_>]) -> Option<PredError>
    ensures misplaced { IfSome result
        (λ error. IsFirstMisplaced names.now (lexed_view tokens.now) error) }
    ensures well_placed { IfNone result (IsWellPlaced names.now (lexed_view tokens.now)) }
    ensures ends { IfNone result ((prefix : List FormatToken) → tokens_of (lexed_view tokens.now) ≡ prefix ++ End ∷ [] →
        walk start (tokens_of (lexed_view tokens.now)) ≡ Some AtEnd) }
{
    def_format::prefixes_are_walked();
    def_format::depths_are_heights();
    let mut place = Place::new();
    for placed in tokens {
        if let Err(kind) = place.read(names, placed.token) {
            return Some(PredError {
                kind,
                at: placed.at,
            });
        }
    }
    None
}

/// A place after tokens of which none is misplaced.
#[derive(Drop)]
struct Place {
    state: State,
    openers: Openers,
    /// The process that the last name before a dot refers to.
    process: usize,
}

impl Place {
    /// The place before the first token.
    fn new() -> Place
        ensures { position_view result ≡ first_position }
    {
        Place {
            state: State::Inside {
                mode: Mode::AtOperand,
                parens: 0,
            },
            openers: Openers::new(),
            process: 0,
        }
    }

    /// Goes after one token more, or says what is wrong with it there.
    fn read(&mut self, names: &Names, token: Token<'_>) -> Result<(), PredErrorKind>
        requires few { open_parens (parser_state_view self.old.state) < usize.MAX }
        requires in_names { IsInNames names.now (parser_state_view self.old.state) self.old.process }
        ensures ok { OnOk result
            (Steps names.now (position_view self.old) (token_view token.entry) (position_view self.new)) }
        ensures few { OnOk result
            (open_parens (parser_state_view self.new.state) ≤ open_parens (parser_state_view self.old.state) + 1) }
        ensures err { IfErr result
            (λ kind. IsFaultAt names.now (position_view self.old) (token_view token.entry) kind) }
    {
        let Some(state) = step(self.state, token) else {
            return Err(PredErrorKind::Expected);
        };
        let Some(process) = self.process_after(names, state, token) else {
            return Err(PredErrorKind::UnknownName);
        };
        if is_opener(token) && self.openers.is_full() {
            return Err(PredErrorKind::Depth);
        }
        self.openers.read(token);
        self.state = state;
        self.process = process;
        Ok(())
    }

    /// The process that the last name refers to after this token, which leads to this state; none if the token is an
    /// unknown name.
    fn process_after(&self, names: &Names, state: State, token: Token<'_>) -> Option<usize>
        requires { IsInNames names.now (parser_state_view self.now.state) self.now.process }
        ensures { result
            ≡ process_after names.now (parser_state_view self.now.state) self.now.process (parser_state_view state)
            (token_view token.entry) }
    {
        let Token::Word(word) = token else {
            return Some(self.process);
        };
        match (self.state, state) {
            (
                State::Inside {
                    mode: Mode::AfterDot(_),
                    ..
                },
                _,
            ) => names.find_var(self.process, word).map(|_var| self.process),
            (
                _,
                State::Inside {
                    mode: Mode::AfterName(_),
                    ..
                },
            ) => names.find(word),
            _ => Some(self.process),
        }
    }
}

/// Whether the token is a `(` or a `not`.
fn is_opener(token: Token<'_>) -> bool
    ensures { result ≡ opens (token_view token.entry) }
{
    match token {
        Token::OpenParen => true,
        Token::Word(word) => word == "not",
        _ => false,
    }
}
