//! The tokens of a line.
ghost use Rattle.std.specs.Prelude.{◌≡◌, ◌∷◌, ℕ, List, [], All, IfSome, IsTrue, Some, option_and_then};
ghost use Rattle.std.specs.Bool.{OnFalse};
ghost use Rattle.json.specs.Token.{begin_object, end_object, key as key_token, number as number_token, string};
ghost use Rattle.json.specs.Lex.{after_value, between, lex, punctuate, tokens};
ghost use Rattle.serde_json.specs.Find.{as_i64};
ghost use Rattle.serde_json.specs.Read.{number_of};
ghost use Rattle.read_tokens.specs.Runs.{IsPlain};

use super::Key;
use super::bytes::{after_byte, after_key, after_spaces, ends_value, number, quoted};
use std::marker::Model;

/// What the next token follows.
#[derive(Clone, Copy)]
enum Place {
    /// Nothing, an opening brace, or a key with its colon.
    Start,
    /// A comma.
    Comma,
    /// A value, with no comma after it.
    Value,
}

/// The tokens of a line that are still to come. A call that gives nothing leaves them open, but for `closes`.
#[derive(Drop)]
pub struct Tokens<'a> {
    rest: &'a [u8],
    place: Place,
}

impl<'a> Model for Tokens<'a> {
    ghost use Rattle.std.specs.Prelude.{List};
    ghost use Rattle.json.specs.Token.{Token, tokens_code};

    ghost Value = { List Token };

    ghost coded = { tokens_code };

    ghost use Rattle.read_tokens.specs.Places.{tokens_at};

    ghost view = { λ t. tokens_at t.place t.rest.now };
}

/// The tokens after a value. A comma is passed.
#[inline(always)]
fn after_value(rest: &[u8]) -> Tokens<'_>
    ensures { result ≡ punctuate after_value (lex between rest.now) }
{
    match after_byte(rest, b',') {
        Some(rest) => Tokens {
            rest,
            place: Place::Comma,
        },
        None => Tokens {
            rest,
            place: Place::Value,
        },
    }
}

impl<'a> Tokens<'a> {
    /// The tokens of these bytes.
    #[inline(always)]
    pub fn new(bytes: &'a [u8]) -> Tokens<'a>
        ensures { result ≡ tokens bytes.now }
    {
        Tokens {
            rest: bytes,
            place: Place::Start,
        }
    }

    /// Passes an opening brace, if it comes next.
    #[inline(always)]
    pub fn opens(&mut self) -> bool
        ensures { IsTrue result → self.old ≡ begin_object ∷ self.new }
    {
        if let Place::Value = self.place {
            return false;
        }
        let Some(rest) = after_byte(after_spaces(self.rest), b'{') else {
            return false;
        };
        *self = Tokens {
            rest,
            place: Place::Start,
        };
        true
    }

    /// Passes a closing brace, if it comes next; otherwise the tokens stay as they are.
    #[inline(always)]
    pub fn closes(&mut self) -> bool
        ensures yes { IsTrue result → self.old ≡ end_object ∷ self.new }
        ensures no { OnFalse result (self.new ≡ self.old) }
    {
        if let Place::Comma = self.place {
            return false;
        }
        let Some(rest) = after_byte(after_spaces(self.rest), b'}') else {
            return false;
        };
        *self = after_value(rest);
        true
    }

    /// Passes this key, if it comes next; otherwise the tokens stay as they are.
    #[inline(always)]
    pub fn passes_key(&mut self, wanted: &Key) -> bool
        ensures yes { IsTrue result → self.old ≡ key_token wanted.now ∷ self.new }
        ensures no { OnFalse result (self.new ≡ self.old) }
    {
        if let Place::Value = self.place {
            return false;
        }
        let Some(rest) = after_key(after_spaces(self.rest), wanted.name()) else {
            return false;
        };
        *self = Tokens {
            rest,
            place: Place::Start,
        };
        true
    }

    /// The key that comes next.
    #[inline(always)]
    pub fn key(&mut self) -> Option<&'a [u8]>
        ensures { IfSome result (λ name. (self.old ≡ key_token name.now ∷ self.new) × All IsPlain name.now) }
    {
        if let Place::Value = self.place {
            return None;
        }
        let (name, after) = quoted(after_spaces(self.rest))?;
        let rest = after_byte(after, b':')?;
        *self = Tokens {
            rest,
            place: Place::Start,
        };
        Some(name)
    }

    /// The text that comes next as a value.
    #[inline(always)]
    pub fn text(&mut self) -> Option<&'a [u8]>
        ensures { IfSome result (λ text. self.old ≡ string text.now ∷ self.new) }
    {
        if let Place::Value = self.place {
            return None;
        }
        let (text, rest) = quoted(after_spaces(self.rest))?;
        if !ends_value(rest) {
            return None;
        }
        *self = after_value(rest);
        Some(text)
    }

    /// The whole number that comes next.
    #[inline(always)]
    pub fn number(&mut self) -> Option<i64>
        ensures { IfSome result (λ value. (text : List ℕ) × (self.old ≡ number_token text ∷ self.new)
            × (option_and_then as_i64 (number_of text) ≡ Some value)) }
    {
        if let Place::Value = self.place {
            return None;
        }
        let (value, rest) = number(after_spaces(self.rest))?;
        if !ends_value(rest) {
            return None;
        }
        *self = after_value(rest);
        Some(value)
    }

    /// Whether no token is left, after a value.
    #[inline(always)]
    pub fn is_over(&self) -> bool
        ensures { IsTrue result → self.now ≡ [] }
    {
        let Place::Value = self.place else {
            return false;
        };
        after_spaces(self.rest).is_empty()
    }
}
