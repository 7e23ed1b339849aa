//! The negative steps of each process.
ghost use Rattle.wide_flow.specs.Rows.{AreRows, IsManyUpTo, IsPayer, IsRow, row_of};
ghost use Rattle.wide_flow.specs.Searches.{AreInPast};
ghost use Rattle.wide_flow.specs.Steps.{AreSteps};
ghost use Rattle.std.specs.Prelude.{◌≡◌, ◌<◌, ◌↔◌, IfOk, IsTrue, length, ℕ};

use super::step::Step;
use std::alloc::{AllocError, Global};

/// Whether the step at a place is a negative one of this process.
fn is_payer(steps: &[Step<'_>], i: usize, process: usize) -> bool
    requires { i < length steps.now }
    ensures { IsTrue result ↔ IsPayer steps.now process i }
{
    steps[i].process == process && steps[i].weight < 0
}

/// The negative steps of a process, by their places.
///
/// # Errors
/// An allocation was refused.
fn payers_of(alloc: Global, steps: &[Step<'_>], process: usize) -> Result<Vec<usize>, AllocError>
    requires { (processes : ℕ) × AreSteps processes steps.now }
    ensures { IfOk result (λ row. IsRow steps.now process row.items) }
{
    let mut row = Vec::new(alloc);
    for i in 0..steps.len() {
        if is_payer(steps, i, process) {
            row.push(i)?;
        }
    }
    Ok(row)
}

/// The negative steps of each process.
///
/// # Errors
/// An allocation was refused.
pub(crate) fn rows(
    alloc: Global,
    steps: &[Step<'_>],
    processes: usize,
) -> Result<Vec<Vec<usize>>, AllocError>
    requires { AreSteps processes steps.now }
    ensures { IfOk result (λ rows. AreRows processes steps.now rows.items) }
{
    let mut rows = Vec::new(alloc);
    for process in 0..processes {
        rows.push(payers_of(alloc, steps, process)?)?;
    }
    Ok(rows)
}

/// How many of the negative steps of a process are among its events up to this count.
fn many_up_to(steps: &[Step<'_>], row: &[usize], count: u16) -> usize
    requires { (process : ℕ) × IsRow steps.now process row.now }
    ensures { IsManyUpTo steps.now row.now count result }
{
    let mut many = 0;
    let mut end = row.len();
    while many < end {
        let middle = many + (end - many) / 2;
        if steps[row[middle]].count <= count {
            many = middle + 1;
        } else {
            end = middle;
        }
    }
    many
}

/// The row of a process.
pub(crate) fn row<'a>(rows: &'a [Vec<usize>], process: usize) -> &'a [usize]
    requires { process < length rows.now }
    ensures { result.now ≡ row_of rows.now process }
{
    rows[process].as_slice()
}

/// How many payers of a process are in the past of step `e`.
pub(crate) fn many_in_past(
    steps: &[Step<'_>],
    rows: &[Vec<usize>],
    e: usize,
    process: usize,
) -> usize
    requires steps { AreSteps (length rows.now) steps.now }
    requires rows { AreRows (length rows.now) steps.now rows.now }
    requires there { e < length steps.now }
    requires process { process < length rows.now }
    ensures { AreInPast steps.now (row_of rows.now process) e result }
{
    many_up_to(steps, row(rows, process), steps[e].past[process])
}
