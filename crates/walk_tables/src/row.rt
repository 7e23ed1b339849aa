//! Which clauses a process makes true, for each count of its events.
ghost use Rattle.walk_keys.specs.Words.{has_bit};
ghost use Rattle.walk_tables.specs.Rows.{IsSingle, moved, row_has};
ghost use Rattle.walk_tables.specs.Tables.{table_at};
ghost use Rattle.walk_tables.specs.Zero.{compares_with_zero, part_limit};
ghost use Rattle.std.specs.Int.RustNames.{unsigned_abs};
ghost use Rattle.std.specs.Prelude.{◌≡◌, ℕ, ◌*◌, ◌<◌, ◌≤◌, ◌+ℤ◌, ◌||◌, IfOk, length, slice_index, true};

use super::bits::put;
use super::table::Table;
use super::zero::holds_at_zero;
use pd_pred::Comparison;
use std::alloc::{AllocError, Global};

/// The clauses that a process makes true, by the count of its events: bit `j` for clause `j`. Past its end a row goes
/// on with one word, so that one without words stands for a process that gives the same at each count.
#[derive(Drop)]
pub(crate) struct ClauseRow {
    pub(crate) words: Vec<u64>,
    pub(crate) beyond: u64,
}

/// The word with the truth as its lowest bit, and no others.
fn single(truth: bool) -> u64
    ensures { IsSingle truth result }
{
    put(walk_keys::bits::lowest(0), 0, truth)
}

/// Moves the bits of each word up.
fn move_up(words: &mut [u64], by: u64)
    requires { by < 64 }
    ensures { (n : ℕ) → n < length words.old → (j : ℕ) → j < 64
        → has_bit (slice_index words.new n) j ≡ moved by (has_bit (slice_index words.old n)) j }
{
    for n in 0..words.len() {
        words[n] = moved_word(words[n], by);
    }
}

/// The word with its bits moved up.
fn moved_word(word: u64, by: u64) -> u64
    requires { by < 64 }
    ensures { (j : ℕ) → j < 64 → has_bit result j ≡ moved by (has_bit word) j }
{
    walk_keys::bits::up(word, by)
}

/// Adds the bits that the row has at each count.
fn add(words: &mut [u64], row: &ClauseRow)
    ensures { (n : ℕ) → n < length words.old → (j : ℕ)
        → has_bit (slice_index words.new n) j ≡ (has_bit (slice_index words.old n) j || row_has row.now n j) }
{
    for n in 0..words.len() {
        words[n] = walk_keys::bits::either(words[n], row.at(n as u64));
    }
}

impl ClauseRow {
    ghost use Rattle.walk_keys.specs.Words.{has_bit};
    ghost use Rattle.walk_tables.specs.Rows.{IsSingle, moved, row_at, row_has};
    ghost use Rattle.std.specs.Prelude.{◌≡◌, ℕ, ◌<◌, ◌||◌, IsTrue, false};

    /// The row of a process that makes no clause true.
    pub(crate) fn none(alloc: Global) -> ClauseRow
        ensures { (n j : ℕ) → row_has result n j ≡ false }
    {
        ClauseRow {
            words: Vec::new(alloc),
            beyond: walk_keys::bits::lowest(0),
        }
    }

    /// The row of one clause, which is true where the table's number and the rest have a sum that stands in the
    /// relation to 0.
    ///
    /// # Errors
    /// An allocation was refused.
    pub(crate) fn of_truths(
        alloc: Global,
        comparison: Comparison,
        rest: i64,
        table: &Table,
    ) -> Result<ClauseRow, AllocError>
        requires { unsigned_abs rest ≤ 3 * part_limit }
        ensures { IfOk result (λ row. (n : ℕ)
            → IsSingle (compares_with_zero comparison (rest +ℤ table_at table.now n)) (row_at row n)) }
    {
        let mut words = Vec::with_capacity(alloc, table.len())?;
        for n in 0..table.len() {
            words.push(single(holds_at_zero(comparison, rest + table.at(n as u64))))?;
        }
        let beyond = single(holds_at_zero(comparison, rest + table.at_end()));
        Ok(ClauseRow { words, beyond })
    }

    /// The word at a count.
    pub(crate) fn at(&self, count: u64) -> u64
        ensures { result ≡ row_at self.now count }
    {
        let index = count as usize;
        if index < self.words.len() {
            self.words[index]
        } else {
            self.beyond
        }
    }

    /// The word at a count that has one of its own.
    pub(crate) fn word(&self, count: u64) -> u64
        requires { count < length self.now.words.items }
        ensures { result ≡ row_at self.now count }
    {
        self.words[count as usize]
    }

    /// Whether each count below `n` has a word of its own.
    pub(crate) fn has_words(&self, n: u64) -> bool
        ensures { IsTrue result → n ≤ length self.now.words.items }
    {
        n <= self.words.len() as u64
    }

    /// All bits that the row has at some count.
    pub(crate) fn any(&self) -> u64
        ensures { (n j : ℕ) → row_has self.now n j ≡ true → has_bit result j ≡ true }
    {
        let mut all = self.beyond;
        for word in &self.words {
            all = walk_keys::bits::either(all, *word);
        }
        all
    }

    /// The row with the bits of each word moved up.
    pub(crate) fn moved_up(self, by: u64) -> ClauseRow
        requires { by < 64 }
        ensures { (n j : ℕ) → j < 64 → row_has result n j ≡ moved by (row_has self n) j }
    {
        let ClauseRow { mut words, beyond } = self;
        move_up(&mut words, by);
        let beyond = moved_word(beyond, by);
        ClauseRow { words, beyond }
    }

    /// The bits that one of the rows has.
    pub(crate) fn either(self, other: ClauseRow) -> ClauseRow
        ensures { (n j : ℕ) → row_has result n j ≡ (row_has self n j || row_has other n j) }
    {
        if self.words.len() < other.words.len() {
            other.with(&self)
        } else {
            self.with(&other)
        }
    }

    /// The row with the bits that another one has, which isn't longer.
    fn with(self, other: &ClauseRow) -> ClauseRow
        requires { length other.now.words.items ≤ length self.words.items }
        ensures { (n j : ℕ) → row_has result n j ≡ (row_has self n j || row_has other.now n j) }
    {
        let ClauseRow { mut words, beyond } = self;
        add(&mut words, other);
        let beyond = walk_keys::bits::either(beyond, other.beyond);
        ClauseRow { words, beyond }
    }
}
