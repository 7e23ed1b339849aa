//! One row of a grid of pairs.
ghost use Rattle.walk_keys.specs.Words.{has_bit};
ghost use Rattle.wide_pairs.specs.Grids.{IsFilled, row_has, word_at};
ghost use Rattle.std.specs.Prelude.{◌≡◌, ◌≢◌, ◌+◌, ◌<◌, ◌≤◌, ◌&&◌, ◌||◌, ℕ, IfOk, false, not};

use super::good_pairs::GoodPairs;
use std::alloc::{AllocError, Global};
use walk_keys::bits::{has, lowest, up, with, without};

/// Some counts of the second process, as bits: bit 0 of the first word is that of 64 times the number `first`.
#[derive(Drop)]
pub(crate) struct Row {
    pub(crate) first: u64,
    pub(crate) words: Vec<u64>,
}

impl Row {
    /// The word with this number, which has the counts from 64 times it on.
    fn word(&self, number: u64) -> u64
        ensures { result ≡ word_at self.now.first self.now.words.items number }
    {
        if number < self.first {
            return 0;
        }
        let at = (number - self.first) as usize;
        if at < self.words.len() {
            return self.words[at];
        }
        0
    }

    /// Whether the row has this count.
    pub(crate) fn has(&self, j: u64) -> bool
        ensures { result ≡ row_has self.now.first self.now.words.items j }
    {
        has(self.word(j / 64), j % 64)
    }
}

/// The row with no count.
pub(crate) fn no_row(alloc: Global) -> Row
    ensures { (j : ℕ) → row_has result.first result.words.items j ≡ false }
{
    Row {
        first: 0,
        words: Vec::new(alloc),
    }
}

/// The bits of `free` that are reached: those that are set in `first` too, or of which the one before is reached. The
/// sum of the two words carries something from a bit to the next one just where the bit is reached.
fn reached(free: u64, first: u64) -> u64
    ensures within { (j : ℕ) → has_bit free j ≡ false → has_bit result j ≡ false }
    ensures lowest { has_bit result 0 ≡ (has_bit free 0 && has_bit first 0) }
    ensures next { (j : ℕ) → j < 63 → has_bit result (j + 1)
        ≡ (has_bit free (j + 1) && (has_bit first (j + 1) || has_bit result j)) }
{
    let seeds = free & first;
    let carried = free ^ seeds ^ free.wrapping_add(seeds);
    free & (seeds | carried)
}

/// The word with bit `from` set as well where there is a start.
fn with_start(word: u64, from: u64, start: bool) -> u64
    requires { from < 64 }
    ensures here { has_bit result from ≡ (start || has_bit word from) }
    ensures others { (j : ℕ) → j ≢ from → has_bit result j ≡ has_bit word j }
{
    if start { with(word, from) } else { word }
}

/// The bits from `from` on, before `to`, that aren't good, and of which the one above or the one before is set, where
/// `start` says whether the one before the first is.
fn filled(good: u64, from: u64, to: u64, above: u64, start: bool) -> u64
    requires order { from < to }
    requires within { to ≤ 64 }
    ensures { IsFilled (has_bit good) (has_bit above) (has_bit result) start from to }
{
    let span = without(lowest(to), lowest(from));
    reached(without(span, good), with_start(above, from, start))
}

/// The bits from `from` on, before `to`, that aren't good, and of which the one above or the one before is set. Bit 0
/// is that of the count `base`, and `start` says whether the one before the first is.
fn filled_word<G: GoodPairs>(
    wanted: &G,
    i: u64,
    base: u64,
    from: u64,
    to: u64,
    above: u64,
    start: bool,
) -> u64
    requires order { from ≤ to }
    requires within { to ≤ 64 }
    requires room { base + 64 ≤ 18446744073709551615 }
    ensures { IsFilled (λ d. G.good wanted.now i (base + d)) (has_bit above) (has_bit result) start from to }
{
    if from == to {
        return 0;
    }
    let good = up(wanted.good_word(i, base + from, to - from), from);
    filled(good, from, to, above, start)
}

/// The row of count `i` of the first process, below that of one count less: of the counts from `low` on, before `end`,
/// those that aren't good, and of which the one above or the one before is in its row.
///
/// # Errors
/// An allocation was refused.
pub(crate) fn next_row<G: GoodPairs>(
    alloc: Global,
    wanted: &G,
    i: u64,
    low: u64,
    end: u64,
    above: &Row,
    start: bool,
) -> Result<Row, AllocError>
    requires order { low < end }
    requires room { end ≤ 4294967296 }
    ensures { IfOk result (λ row. IsFilled (G.good wanted.now i) (row_has above.now.first above.now.words.items)
        (row_has row.first row.words.items) start low end) }
{
    let first = low / 64;
    let past = (end - 1) / 64 + 1;
    let mut words = Vec::with_capacity(alloc, (past - first) as usize)?;
    let mut left = start;
    for number in first..past {
        let base = number * 64;
        let from = low.max(base) - base;
        let to = end.min(base + 64) - base;
        let word = filled_word(wanted, i, base, from, to, above.word(number), left);
        left = has(word, 63);
        words.push(word)?;
    }
    Ok(Row { first, words })
}
