//! A text while it is written.
ghost use Rattle.app_text.specs.Shown.{shown_name, shown_text};
ghost use Rattle.app_text.specs.Texts.{Says, SaysSome};
ghost use Rattle.app_text.specs.Window.{ShowsPlace, ShowsStart};
ghost use Rattle.std.specs.Prelude.{◌≡◌, [], decimal, drop, false, take, true, MatchOption, MatchResult, None, Some};

use super::says::{put, put_name, put_number, put_shown};
use super::window::put_line;
use std::alloc::{AllocError, Global};
use std::marker::Model;

/// A text while it is written. Once memory runs out it goes no further: what is said from then on is left out. So
/// whoever writes it says one thing after another, and nobody has to ask whether there was room.
#[derive(Drop)]
pub struct Text {
    bytes: Vec<u8>,
    is_whole: bool,
}

impl Model for Text {
    ghost use Rattle.app_text.specs.Texts.{Written};

    ghost Value = { Written };

    ghost view = { λ t. record { bytes = t.bytes.items; is_whole = t.is_whole } };
}

impl Text {
    /// A text in which nothing is said. It takes no memory.
    pub fn new(alloc: Global) -> Text
        ensures bytes { result.bytes ≡ [] }
        ensures whole { result.is_whole ≡ true }
    {
        Text {
            bytes: Vec::new(alloc),
            is_whole: true,
        }
    }

    /// Whether all that was said is there.
    pub fn is_whole(&self) -> bool
        ensures { result ≡ self.now.is_whole }
    {
        self.is_whole
    }

    /// The bytes.
    pub fn bytes(&self) -> &[u8]
        ensures { result.now ≡ self.now.bytes }
    {
        &self.bytes
    }

    /// The bytes, as a vector of their own.
    pub fn into_bytes(self) -> Vec<u8>
        ensures { result.items ≡ self.bytes }
    {
        self.bytes
    }

    /// Takes what was made for this text, or nothing if memory ran out for it: then the text goes no further.
    pub fn take_made<T>(&mut self, made: Result<T, AllocError>) -> Option<T>
        ensures { MatchResult made (λ value. (result ≡ Some value) × (self.new ≡ self.old))
            (λ _. (result ≡ None) × (self.new.is_whole ≡ false)) }
    {
        match made {
            Ok(value) => Some(value),
            Err(_) => {
                self.is_whole = false;
                None
            }
        }
    }

    /// Says this.
    pub fn say(&mut self, text: &str)
        ensures { Says text.now self.old self.new }
    {
        if self.is_whole {
            match put(&mut self.bytes, text) {
                Ok(()) => (),
                Err(_) => self.is_whole = false,
            }
        }
    }

    /// Says a number in decimal digits.
    pub fn say_number(&mut self, number: u64)
        ensures { Says (decimal number) self.old self.new }
    {
        if self.is_whole {
            match put_number(&mut self.bytes, number) {
                Ok(()) => (),
                Err(_) => self.is_whole = false,
            }
        }
    }

    /// Says a number that may be below 0.
    pub fn say_signed(&mut self, number: i64) {
        if number < 0 {
            self.say("-");
        }
        self.say_number(number.unsigned_abs());
    }

    /// Says bytes so that each of them can be seen, and no more of them than a name may have.
    pub fn say_shown(&mut self, bytes: &[u8])
        ensures { Says (shown_text bytes.now) self.old self.new }
    {
        if self.is_whole {
            match put_shown(&mut self.bytes, bytes) {
                Ok(()) => (),
                Err(_) => self.is_whole = false,
            }
        }
    }

    /// Says a name between two backquotes.
    pub fn say_name(&mut self, name: &str)
        ensures { Says (shown_name name.now) self.old self.new }
    {
        if self.is_whole {
            match put_name(&mut self.bytes, name) {
                Ok(()) => (),
                Err(_) => self.is_whole = false,
            }
        }
    }

    /// Says what another text says, and that it isn't whole if that one isn't.
    pub fn say_text(&mut self, text: &Text)
        ensures said { Says text.now.bytes self.old self.new }
        ensures whole { self.new.is_whole ≡ true → text.now.is_whole ≡ true }
    {
        if self.is_whole {
            match self.bytes.extend_from_slice(&text.bytes) {
                Ok(()) => self.is_whole = text.is_whole,
                Err(_) => self.is_whole = false,
            }
        }
    }

    /// Says what was expected, and what to do; nothing of what is empty.
    pub fn say_advice(&mut self, expected: &str, advice: &str) {
        if !expected.is_empty() {
            self.say("Expected: ");
            self.say(expected);
            self.say("\n");
        }
        if !advice.is_empty() {
            self.say("What to do: ");
            self.say(advice);
            self.say("\n");
        }
    }

    /// Shows a line, cut to a window of 70 columns around the place, with a caret below the byte there. A place past
    /// the line's end is that of its end. With no place the line's start is shown, and no caret.
    pub fn show_line(&mut self, line: &[u8], place: Option<usize>)
        ensures { SaysSome (λ text. MatchOption place (ShowsStart line.now text)
            (λ at. ShowsPlace (take at line.now) (drop at line.now) text)) self.old self.new }
    {
        if self.is_whole {
            match put_line(&mut self.bytes, line, place) {
                Ok(()) => (),
                Err(_) => self.is_whole = false,
            }
        }
    }
}
