//! The counts of a process that stand in the past of a point of another process.
ghost use Rattle.wide_slice.specs.Points.{ArePasts, AreAsked, IsAsked, IsAskedBy, flag, flags_at, past_at, row_at};
ghost use Rattle.def_model.specs.Events.{event_count};
ghost use Rattle.std.specs.Prelude.{◌≡◌, ◌≢◌, ◌+◌, ◌<◌, IfOk, length, slice_index, slice_set, true, ℕ};

use super::points::{Point, row};
use pd_clock::Computation;
use std::alloc::{AllocError, Global};

/// The count of a process in the past of a point.
fn count_in_past(points: &[Point], k: usize, process: usize) -> u16
    requires there { k < length points.now }
    requires within { process < length (past_at points.now k) }
    ensures { result ≡ slice_index (past_at points.now k) process }
{
    points[k].past.counts()[process]
}

/// Marks a count.
fn mark(flags: &mut [bool], count: u16)
    requires { count < length flags.old }
    ensures { flags.new ≡ slice_set flags.old count true }
{
    flags[count as usize] = true;
}

/// Marks the counts of process `process` in the pasts of these points.
fn ask(flags: &mut [bool], points: &[Point], process: usize)
    requires there { (k : ℕ) → k < length points.now → process < length (past_at points.now k) }
    requires within { (k : ℕ) → k < length points.now
        → slice_index (past_at points.now k) process < length flags.old }
    ensures asked { IsAskedBy points.now process (length points.now) flags.new }
    ensures kept { (g : ℕ) → flag flags.old g ≡ true → flag flags.new g ≡ true }
{
    for k in 0..points.len() {
        mark(flags, count_in_past(points, k, process));
    }
}

/// Marks the counts of process `process` in the pasts of all points of other processes.
fn ask_all(computation: &Computation<'_>, flags: &mut [bool], rows: &[Vec<Point>], process: usize)
    requires one_each { length rows.now ≡ length computation.now.events }
    requires there { process < length computation.now.events }
    requires pasts { ArePasts computation.now.events rows.now }
    requires many { length flags.old ≡ event_count computation.now.events process + 1 }
    ensures { (p : ℕ) → p < length computation.now.events → p ≢ process
        → IsAskedBy (row_at rows.now p) process (length (row_at rows.now p)) flags.new }
{
    for p in 0..rows.len() {
        if p != process {
            let points = row(rows, p);
            ask(flags, points, process);
        }
    }
}

/// Which counts of process `process` stand in the past of a point of another process.
///
/// # Errors
/// An allocation was refused.
fn asked_of(
    alloc: Global,
    computation: &Computation<'_>,
    rows: &[Vec<Point>],
    process: usize,
) -> Result<Vec<bool>, AllocError>
    requires one_each { length rows.now ≡ length computation.now.events }
    requires there { process < length computation.now.events }
    requires pasts { ArePasts computation.now.events rows.now }
    ensures { IfOk result (λ flags. IsAsked computation.now.events rows.now process flags.items) }
{
    computation.limits();
    let counts = computation.events(process) as usize + 1;
    let mut flags = vec![in alloc; false; counts]?;
    ask_all(computation, &mut flags, rows, process);
    Ok(flags)
}

/// The same of each process.
///
/// # Errors
/// An allocation was refused.
pub(crate) fn asked(
    alloc: Global,
    computation: &Computation<'_>,
    rows: &[Vec<Point>],
) -> Result<Vec<Vec<bool>>, AllocError>
    requires one_each { length rows.now ≡ length computation.now.events }
    requires pasts { ArePasts computation.now.events rows.now }
    ensures { IfOk result (λ asked. AreAsked computation.now.events rows.now asked.items) }
{
    let mut asked = Vec::new(alloc);
    for process in 0..computation.processes() {
        asked.push(asked_of(alloc, computation, rows, process)?)?;
    }
    Ok(asked)
}

/// The marks of a process.
pub(crate) fn flags_of<'a>(asked: &'a [Vec<bool>], process: usize) -> &'a [bool]
    requires { process < length asked.now }
    ensures { result.now ≡ flags_at asked.now process }
{
    asked[process].as_slice()
}
