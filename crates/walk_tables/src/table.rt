//! A number for each count of a process.
ghost use Rattle.walk_tables.specs.Zero.{IsBetween, IsSmall};
ghost use Rattle.std.specs.Prelude.{◌≡◌, ℕ, ℤ, ◌≤ℤ◌, IsTrue, slice_index_or};

/// No number of a table is further from 0: the sum of one for each process and a constant then fits 64 bits.
pub(crate) const PART_LIMIT: i128 = 288_230_376_151_711_744;

/// What a process adds to a sum, by the count of its events. Past its end a table goes on with one number, so that one
/// without numbers stands for a process that adds the same at each count.
#[derive(Drop)]
pub(crate) struct Table {
    values: Vec<i64>,
    beyond: i64,
    pub(crate) least: i64,
    pub(crate) greatest: i64,
    ghost between: { (n : ℕ) → IsBetween least greatest (slice_index_or values.items n beyond) },
    ghost low: { IsSmall least },
    ghost high: { IsSmall greatest },
}

/// The lesser of two numbers.
fn lesser(a: i64, b: i64) -> i64
    ensures first { result ≤ℤ a }
    ensures second { result ≤ℤ b }
    ensures small { IsSmall a → IsSmall b → IsSmall result }
{
    if b < a { b } else { a }
}

/// The greater of two numbers.
fn greater(a: i64, b: i64) -> i64
    ensures first { a ≤ℤ result }
    ensures second { b ≤ℤ result }
    ensures small { IsSmall a → IsSmall b → IsSmall result }
{
    if b > a { b } else { a }
}

/// Whether both are the same numbers.
fn are_same(first: &[i64], second: &[i64]) -> bool
    ensures { IsTrue result → (n : ℕ) (d : ℤ) → slice_index_or first.now n d ≡ slice_index_or second.now n d }
{
    if first.len() != second.len() {
        return false;
    }
    for i in 0..first.len() {
        if first[i] != second[i] {
            return false;
        }
    }
    true
}

impl Table {
    ghost use Rattle.walk_tables.specs.Parts.{row_at};
    ghost use Rattle.walk_tables.specs.Tables.{table_at};
    ghost use Rattle.walk_tables.specs.Zero.{IsBetween, IsSmall};
    ghost use Rattle.std.specs.Prelude.{◌≡◌, ◌<◌, ℕ, IsTrue, length};

    /// The table of these numbers. Past them stands the first, or 0 if there is none.
    pub(crate) fn new(values: Vec<i64>) -> Table
        requires { (n : ℕ) → IsSmall (row_at values.items n) }
        ensures within { (n : ℕ) → n < length values.items → table_at result n ≡ row_at values.items n }
        ensures none { (n : ℕ) → length values.items ≡ 0 → table_at result n ≡ row_at values.items n }
    {
        let beyond = if values.is_empty() { 0 } else { values[0] };
        let mut least = beyond;
        let mut greatest = beyond;
        for value in &values {
            least = lesser(least, *value);
            greatest = greater(greatest, *value);
        }
        Table {
            values,
            beyond,
            least,
            greatest,
        }
    }

    /// How many numbers the table has.
    pub(crate) fn len(&self) -> usize
        ensures { result ≡ length self.now.values.items }
    {
        self.values.len()
    }

    /// The number past the end.
    pub(crate) fn at_end(&self) -> i64
        ensures value { result ≡ self.now.beyond }
        ensures small { IsSmall result }
    {
        self.beyond
    }

    /// The number at a count.
    pub(crate) fn at(&self, count: u64) -> i64
        ensures value { result ≡ table_at self.now count }
        ensures between { IsBetween self.now.least self.now.greatest result }
        ensures small { IsSmall result }
    {
        let index = count as usize;
        if index < self.values.len() {
            self.values[index]
        } else {
            self.beyond
        }
    }

    /// Whether the other table has the same number at each count. False isn't sure.
    pub(crate) fn is_same(&self, other: &Table) -> bool
        ensures { IsTrue result → (n : ℕ) → table_at self.now n ≡ table_at other.now n }
    {
        if self.least != other.least || self.greatest != other.greatest {
            return false;
        }
        if self.beyond != other.beyond {
            return false;
        }
        are_same(&self.values, &other.values)
    }

    /// Whether the least number is the greatest. Then the table has the same number at each count.
    pub(crate) fn is_level(&self) -> bool
        ensures { IsTrue result → (m n : ℕ) → table_at self.now m ≡ table_at self.now n }
    {
        self.least == self.greatest
    }
}
