//! The steps of one process.
ghost use Rattle.wide_slice.specs.Parts.{AddsPart, AreAbove, AreInOrder};
ghost use Rattle.wide_slice.specs.Points.{count_at, flag};
ghost use Rattle.wide_slice.specs.Values.{number_at, value_limit, value_of};
ghost use Rattle.wide_flow.specs.Steps.{size_limit};
ghost use Rattle.std.specs.Prelude.{◌≡◌, ◌<◌, ◌≤◌, ◌-ℤ◌, ◌≤ℤ◌, OnOk, false, length, true, unsigned_abs, ℕ};

use super::points::Point;
use std::alloc::AllocError;
use wide_flow::Step;

/// What a process adds at a count, and 0 past the end of its row.
fn number_of(numbers: &[i128], count: u64) -> i128
    ensures { result ≡ number_at numbers.now count }
{
    let index = count as usize;
    if index < numbers.len() {
        numbers[index]
    } else {
        0
    }
}

/// What a process adds, by its count.
pub(crate) fn numbers_of<'a>(values: &'a [Vec<i128>], process: usize) -> &'a [i128]
    requires { process < length values.now }
    ensures { number_at result.now ≡ value_of values.now process }
{
    values[process].as_slice()
}

/// Whether a count is kept: it stands in the past of a point of another process, or more is added at it than at the
/// last kept one.
fn is_kept(asked: &[bool], count: u16, number: i128, high: i128) -> bool
    requires { count < length asked.now }
    ensures asked { result ≡ false → flag asked.now count ≡ false }
    ensures high { result ≡ false → number ≤ℤ high }
{
    asked[count as usize] || number > high
}

/// The difference of two numbers.
fn rise(number: i128, high: i128) -> i128
    requires number { unsigned_abs number ≤ value_limit }
    requires high { unsigned_abs high ≤ value_limit }
    ensures is { result ≡ number -ℤ high }
    ensures small { unsigned_abs result < size_limit }
{
    number - high
}

/// Adds the steps of a process: its points, but for those that are idle.
///
/// # Errors
/// An allocation was refused.
pub(crate) fn add_steps<'a>(
    points: &'a [Point],
    asked: &[bool],
    numbers: &[i128],
    process: usize,
    least: u64,
    steps: &mut Vec<Step<'a>>,
) -> Result<(), AllocError>
    requires ordered { AreInOrder points.now }
    requires above { AreAbove least points.now }
    requires within { (k : ℕ) → k < length points.now → count_at points.now k < length asked.now }
    requires small { (count : ℕ) → unsigned_abs (number_at numbers.now count) ≤ value_limit }
    ensures { OnOk result (AddsPart points.now asked.now (number_at numbers.now) process least
        steps.old.items steps.new.items) }
{
    let mut high = number_of(numbers, least);
    for k in 0..points.len() {
        let point = &points[k];
        let number = number_of(numbers, point.count as u64);
        if is_kept(asked, point.count, number, high) {
            let weight = rise(number, high);
            steps.push(Step {
                process,
                count: point.count,
                past: point.past.counts(),
                weight,
                key: 0,
            })?;
            high = number;
        }
    }
    Ok(())
}
