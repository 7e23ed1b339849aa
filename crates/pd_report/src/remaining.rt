//! The words that remain of bytes, taken one after another.
ghost use Rattle.def_format.specs.Reports.{Fits};
ghost use Rattle.pd_report.specs.Remaining.{words_left};
ghost use Rattle.pd_report.specs.Reading.{pieces};
ghost use Rattle.std.specs.Prelude.{◌≡◌, ◌==◌, ◌∷◌, [], ℕ, List, MatchOption, decimal, length};

use super::words::{cut_at, is, number};

/// The words that remain of bytes with one byte between each two. They are found as they are taken, so they need no
/// memory.
#[derive(Clone, Copy)]
pub(crate) struct Words<'a> {
    /// The byte between two words.
    between: u8,
    /// The bytes of the words that remain, if a word does.
    rest: Option<&'a [u8]>,
}

impl<'a> Words<'a> {
    /// All words of the bytes.
    pub(crate) fn new(bytes: &'a [u8], between: u8) -> Words<'a>
        ensures { words_left result ≡ pieces between bytes.now }
    {
        Words {
            between,
            rest: Some(bytes),
        }
    }

    /// Whether no word remains.
    pub(crate) fn is_empty(self) -> bool
        ensures { result ≡ (length (words_left self.entry) == 0) }
    {
        self.rest.is_none()
    }

    /// The next word, and those after it.
    pub(crate) fn split_first(self) -> Option<(&'a [u8], Words<'a>)>
        ensures { MatchOption result (words_left self.entry ≡ [])
            (λ found. words_left self.entry ≡ found.0.now ∷ words_left found.1) }
    {
        let Some(bytes) = self.rest else {
            return None;
        };
        let between = self.between;
        match cut_at(bytes, between) {
            Some((word, rest)) => Some((
                word,
                Words {
                    between,
                    rest: Some(rest),
                },
            )),
            None => Some((
                bytes,
                Words {
                    between,
                    rest: None,
                },
            )),
        }
    }

    /// The words after this one.
    pub(crate) fn after(self, text: &str) -> Option<Words<'a>>
        ensures { MatchOption result ((rest : List (List ℕ)) → ¬ (words_left self.entry ≡ text.now ∷ rest)) (λ rest.
            words_left self.entry ≡ text.now ∷ words_left rest) }
    {
        let Some((first, rest)) = self.split_first() else {
            return None;
        };
        if is(first, text) { Some(rest) } else { None }
    }

    /// The word, if it is the only one.
    pub(crate) fn single(self) -> Option<&'a [u8]>
        ensures { MatchOption result ((word : List ℕ) → ¬ (words_left self.entry ≡ word ∷ [])) (λ word.
            words_left self.entry ≡ word.now ∷ []) }
    {
        let Some((first, rest)) = self.split_first() else {
            return None;
        };
        if rest.is_empty() { Some(first) } else { None }
    }

    /// The number that the words begin with, and the words after it.
    pub(crate) fn leading_number(self) -> Option<(u64, Words<'a>)>
        ensures { MatchOption result ((n : ℕ) (rest : List (List ℕ)) → Fits n
            → ¬ (words_left self.entry ≡ decimal n ∷ rest)) (λ found. Fits found.0
            × (words_left self.entry ≡ decimal found.0 ∷ words_left found.1)) }
    {
        let Some((first, rest)) = self.split_first() else {
            return None;
        };
        let Some(number) = number(first) else {
            return None;
        };
        Some((number, rest))
    }
}
