//! What is open around a token of a predicate.
ghost use Rattle.def_format.specs.Limits.{depth_limit};
ghost use Rattle.def_format.specs.OpenerStack.{drop_nots, opened};
ghost use Rattle.def_format.specs.Tokens as format;
ghost use Rattle.def_format.specs.PredicateTexts.{opens};
ghost use Rattle.pd_pred.specs.Openers.{openers_view};
ghost use Rattle.pd_pred.specs.Tokens.{token_view};
ghost use Rattle.std.specs.Prelude.{◌≡◌, ◌<◌, ◌≤◌, ◌==◌, [], length, IsTrue, codes};
ghost use Rattle.std.specs.Str.{bytes_eq};

use super::state::{WordKind, word_kind};
use super::token::Token;
use arrayvec::ArrayVec;
use def_format::DEPTH_LIMIT;

/// A token that stands open around others.
#[derive(Clone, Copy, Default)]
enum Opener {
    /// A `(`.
    #[default]
    Paren,
    /// A `not`.
    Negation,
}

/// The parentheses and the `not`s around a token, the outermost first.
#[derive(Drop)]
pub(crate) struct Openers {
    stack: ArrayVec<Opener, DEPTH_LIMIT>,
}

impl Openers {
    /// Nothing is open.
    pub(crate) fn new() -> Openers
        ensures { openers_view result ≡ [] }
    {
        Openers {
            stack: ArrayVec::new(),
        }
    }

    /// Whether no more fits.
    pub(crate) fn is_full(&self) -> bool
        ensures full { result ≡ (length (openers_view self.now) == depth_limit) }
        ensures fits { length (openers_view self.now) ≤ depth_limit }
    {
        self.stack.is_full()
    }

    /// What is open after one token more.
    pub(crate) fn read(&mut self, token: Token<'_>)
        requires { IsTrue (opens (token_view token)) → length (openers_view self.old) < depth_limit }
        ensures { openers_view self.new ≡ opened (openers_view self.old) (token_view token.entry) }
    {
        match token {
            Token::OpenParen => self.stack.push(Opener::Paren),
            Token::CloseParen => {
                self.drop_negations();
                let _paren = self.stack.pop();
            }
            Token::Word(word) => self.read_word(word),
            _ => {}
        }
    }

    fn read_word(&mut self, word: &str)
        requires { IsTrue (bytes_eq word.now (codes "not")) → length (openers_view self.old) < depth_limit }
        ensures { openers_view self.new ≡ opened (openers_view self.old) (format.Word word.now) }
    {
        match word_kind(word) {
            WordKind::Negates => self.stack.push(Opener::Negation),
            WordKind::Joins => self.drop_negations(),
            WordKind::Truth | WordKind::Name => {}
        }
    }

    /// Ends the operands of the innermost `not`s.
    fn drop_negations(&mut self)
        ensures { openers_view self.new ≡ drop_nots (openers_view self.old) }
    {
        while let Some(Opener::Negation) = self.stack.last() {
            let _negation = self.stack.pop();
        }
    }
}
