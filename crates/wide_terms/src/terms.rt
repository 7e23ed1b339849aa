//! The terms of a predicate.
ghost use Rattle.walk_keys.specs.Words.{has_bit};
ghost use Rattle.pd_pred.specs.Trees.{tree_view};
ghost use Rattle.def_model.specs.Decided.{IsLocal};
ghost use Rattle.wide_terms.specs.Rows.{AreOf, AreTermsOf, AreWithin, numbers_view, row_allows, term_allows};
ghost use Rattle.std.specs.Prelude.{◌≡◌, ◌+◌, ◌*◌, ◌<◌, ℕ, All, IfOk, Some, length, slice_get};

use super::build::build;
use super::row::TruthRow;
use super::truths::word_at;
use pd_clock::Computation;
use pd_pred::Tree;
use std::alloc::{AllocError, Global};
use walk_keys::bits::{BITS, both, down, has, least, lowest, words};
use wide_conjunctions::GoodCounts;

/// A predicate as an `or` of terms, over the counts of a computation.
#[derive(Drop)]
pub struct Terms {
    rows: Vec<TruthRow>,
    terms: Vec<Vec<usize>>,
    ghost sound: { AreOf rows.items (numbers_view terms.items) },
}

/// One of the terms.
#[derive(Clone, Copy)]
pub struct Term<'a> {
    pub(crate) rows: &'a [TruthRow],
    pub(crate) numbers: &'a [usize],
    ghost sound: { All (λ i. i < length rows.now) numbers.now },
}

/// Which of the 64 counts of a word are good for a comparison, of a process.
fn allowed(row: &TruthRow, process: usize, number: u64) -> u64
    ensures { (j : ℕ) → j < 64 → has_bit result j ≡ row_allows (Some row.now) process (number * 64 + j) }
{
    if row.process != process {
        return lowest(BITS);
    }
    word_at(&row.words, number)
}

impl Terms {
    /// The terms of a predicate of which each comparison speaks of one process at most, or of its opposite where
    /// `negated`.
    ///
    /// # Errors
    /// An allocation was refused.
    pub fn of(
        alloc: Global,
        computation: &Computation<'_>,
        tree: &Tree,
        negated: bool,
    ) -> Result<Terms, AllocError>
        requires { IsLocal (tree_view tree.now) }
        ensures within { IfOk result (λ terms. AreWithin computation.now terms.rows.items) }
        ensures hold { IfOk result (λ terms. AreTermsOf computation.now negated (tree_view tree.now) terms.rows.items
            (numbers_view terms.terms.items)) }
    {
        let mut rows = Vec::new(alloc);
        let mut known = Vec::new(alloc);
        let terms = build(alloc, computation, tree, negated, &mut rows, &mut known)?;
        Ok(Terms { rows, terms })
    }

    /// How many terms there are.
    pub fn len(&self) -> usize
        ensures { result ≡ length self.now.terms.items }
    {
        self.terms.len()
    }

    /// The term with this number, from 0.
    pub fn term(&self, i: usize) -> Term<'_>
        requires { i < length self.now.terms.items }
        ensures rows { result.rows.now ≡ self.now.rows.items }
        ensures numbers { slice_get (numbers_view self.now.terms.items) i ≡ Some result.numbers.now }
    {
        Term {
            rows: &self.rows,
            numbers: &self.terms[i],
        }
    }
}

impl Term<'_> {
    /// Which of the 64 counts of the word with this number are good for all comparisons, of a process.
    fn word(&self, process: usize, number: u64) -> u64
        ensures { (j : ℕ) → j < 64 → has_bit result j
            ≡ term_allows self.now.rows.now self.now.numbers.now process (number * 64 + j) }
    {
        let mut word = lowest(BITS);
        for &i in self.numbers {
            word = both(word, allowed(&self.rows[i], process, number));
        }
        word
    }
}

impl GoodCounts for Term<'_> {
    ghost good = { λ t. term_allows t.rows.now t.numbers.now };

    fn is_good(&self, process: usize, count: u64) -> bool {
        has(self.word(process, count / BITS), count % BITS)
    }

    fn next_good(&self, process: usize, from: u64, last: u64) -> Option<u64> {
        let mut at = from;
        while at <= last {
            let low = at % BITS;
            let whole = self.word(process, at / BITS);
            words(whole);
            let word = down(whole, low);
            words(word);
            if word != 0 {
                let next = at + least(word);
                return if next <= last { Some(next) } else { None };
            }
            at += BITS - low;
        }
        None
    }
}
