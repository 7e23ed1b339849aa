//! The greatest number of a row between two counts, by two look-ups in a table of the greatest numbers of stretches
//! that are powers of 2 long.
//!
//! Source: Bender and Farach-Colton, The LCA Problem Revisited, 2000.
ghost use Rattle.wide_gates.specs.Tables.{HasWidth, IsGreatest, IsRising, IsTable};
ghost use Rattle.wide_slice.specs.Values.{number_at};
ghost use Rattle.def_format.specs.Limits.{event_limit};
ghost use Rattle.std.specs.Int.{int_max};
ghost use Rattle.std.specs.Prelude.{◌≡◌, ◌+◌, ◌<◌, ◌≤◌, ◌^◌, IfOk, IsTrue, ℕ, List, ℤ, length};

use std::alloc::{AllocError, Global};

/// The greatest number among 1, 2, 4, 8 and so on counts from each one on. Of a row that never falls there is none: its
/// greatest number between two counts is that at the last of them.
#[derive(Drop)]
pub(crate) struct Table {
    rises: bool,
    levels: Vec<Vec<i128>>,
}

/// The number of a row at a count, and 0 past its end.
pub(crate) fn number(row: &[i128], count: u64) -> i128
    ensures { result ≡ number_at row.now count }
{
    row.get(count as usize).copied().unwrap_or(0)
}

/// Whether no event makes the number of the row less.
fn is_rising(row: &[i128], events: u64) -> bool
    ensures { IsTrue result → IsRising row.now events }
{
    for count in 0..events {
        if number(row, count + 1) < number(row, count) {
            return false;
        }
    }
    true
}

/// The greater of two numbers.
fn greater(a: i128, b: i128) -> i128
    ensures { result ≡ int_max a b }
{
    if b < a { a } else { b }
}

/// `2` to the power of `k`.
fn power(k: u32) -> u64
    requires { k < 64 }
    ensures { result ≡ 2 ^ k }
{
    1 << k
}

/// The numbers of a row at this many counts.
fn first_level(alloc: Global, row: &[i128], counts: u64) -> Result<Vec<i128>, AllocError>
    ensures { IfOk result (λ level. HasWidth row.now counts 1 level.items) }
{
    let mut level = Vec::new(alloc);
    for count in 0..counts {
        level.push(number(row, count))?;
    }
    Ok(level)
}

/// The greatest number among twice as many counts from each one on.
fn next_level(alloc: Global, level: &[i128], width: usize) -> Result<Vec<i128>, AllocError>
    requires { width < length level.now }
    ensures { IfOk result (λ next. (row : List ℤ) (counts : ℕ) → HasWidth row counts width level.now
        → HasWidth row counts (width + width) next.items) }
{
    let mut next = Vec::new(alloc);
    for count in 0..level.len() - width {
        next.push(greater(level[count], level[count + width]))?;
    }
    Ok(next)
}

impl Table {
    /// The table of a row for the counts up to `events`.
    ///
    /// # Errors
    /// An allocation was refused.
    pub(crate) fn new(alloc: Global, row: &[i128], events: u64) -> Result<Table, AllocError>
        requires { events ≤ event_limit }
        ensures { IfOk result (IsTable row.now events) }
    {
        let mut levels = Vec::new(alloc);
        if is_rising(row, events) {
            return Ok(Table {
                rises: true,
                levels,
            });
        }
        let mut level = first_level(alloc, row, events + 1)?;
        let mut width = 1;
        while width < level.len() {
            let next = next_level(alloc, &level, width)?;
            levels.push(level)?;
            level = next;
            width *= 2;
        }
        levels.push(level)?;
        Ok(Table {
            rises: false,
            levels,
        })
    }

    /// The greatest number of the row from one count to another, that one included.
    pub(crate) fn greatest(&self, row: &[i128], events: u64, low: u64, high: u64) -> i128
        requires table { IsTable row.now events self.now }
        requires ordered { low ≤ high }
        requires within { high ≤ events }
        requires few { events ≤ event_limit }
        ensures { IsGreatest row.now low (high + 1) result }
    {
        if self.rises {
            return number(row, high);
        }
        let k = (high + 1 - low).ilog2();
        let last = high + 1 - power(k);
        at_level(&self.levels[k as usize], low, last)
    }
}

/// The greater of two numbers of a level.
fn at_level(level: &[i128], low: u64, last: u64) -> i128
    requires low { low < length level.now }
    requires last { last < length level.now }
    ensures { (row : List ℤ) (counts width : ℕ) → HasWidth row counts width level.now → low ≤ last
        → last ≤ low + width → IsGreatest row low (last + width) result }
{
    greater(level[low as usize], level[last as usize])
}
