//! The slice, and its steps.
ghost use Rattle.wide_conjunctions.specs.LeastCuts.{HasNoGood, IsLeastGood};
ghost use Rattle.wide_slice.specs.Parts.{AddsPart};
ghost use Rattle.wide_slice.specs.Points.{flags_at, row_at};
ghost use Rattle.wide_slice.specs.Slices.{IsSlice};
ghost use Rattle.wide_slice.specs.Steps.{AreStepsOf};
ghost use Rattle.wide_slice.specs.Values.{AreValues, value_of};
ghost use Rattle.std.specs.Prelude.{◌≡◌, ◌<◌, IfNone, IfOk, IfSome, OnOk, length, slice_index};

use super::asked::{asked, flags_of};
use super::kept::{add_steps, numbers_of};
use super::points::{Point, row, rows};
use pd_clock::Computation;
use std::alloc::{AllocError, Global};
use wide_conjunctions::{GoodCounts, least_good};
use wide_flow::Step;

/// The consistent cuts of a computation at which each process is at a good count, by the counts that processes have in
/// them. For each such count it keeps the least cut that has it.
#[derive(Drop)]
pub struct Slice {
    least: Vec<u64>,
    rows: Vec<Vec<Point>>,
    asked: Vec<Vec<bool>>,
}

/// The slice with this least cut.
///
/// # Errors
/// An allocation was refused.
fn slice_from<G: GoodCounts>(
    alloc: Global,
    computation: &Computation<'_>,
    wanted: &G,
    least: &[u64],
) -> Result<Slice, AllocError>
    requires { IsLeastGood computation.now.events (G.good wanted.now) least.now }
    ensures { IfOk result (IsSlice computation.now.events (G.good wanted.now)) }
{
    let rows = rows(alloc, computation, wanted, least)?;
    let asked = asked(alloc, computation, &rows)?;
    let least = least.to_vec(alloc)?;
    Ok(Slice { least, rows, asked })
}

/// The slice, if it has a cut. For each process the counts go up once, from those of the least cut to those of the
/// greatest. Each step up adds an event, and asks for one count of each process at most, beside those that it passes.
///
/// # Errors
/// An allocation was refused.
pub fn slice_of<G: GoodCounts>(
    alloc: Global,
    computation: &Computation<'_>,
    wanted: &G,
) -> Result<Option<Slice>, AllocError>
    ensures some { IfOk result (λ found. IfSome found (IsSlice computation.now.events (G.good wanted.now))) }
    ensures none { IfOk result (λ found. IfNone found (HasNoGood computation.now.events (G.good wanted.now))) }
{
    let found = least_good(alloc, computation, wanted)?;
    match found {
        Some(cut) => {
            let slice = slice_from(alloc, computation, wanted, cut.counts())?;
            Ok(Some(slice))
        }
        None => Ok(None),
    }
}

impl Slice {
    /// The counts of the least cut.
    pub fn least(&self) -> &[u64]
        ensures { result.now ≡ self.now.least.items }
    {
        &self.least
    }
}

/// Adds the steps of one process. What is wanted is there for the contract alone.
///
/// # Errors
/// An allocation was refused.
fn add_steps_of<'a, G: GoodCounts>(
    computation: &Computation<'_>,
    _wanted: &G,
    slice: &'a Slice,
    values: &[Vec<i128>],
    process: usize,
    steps: &mut Vec<Step<'a>>,
) -> Result<(), AllocError>
    requires slice { IsSlice computation.now.events (G.good _wanted.now) slice.now }
    requires values { AreValues computation.now.events values.now }
    requires there { process < length computation.now.events }
    ensures { OnOk result (AddsPart (row_at slice.now.rows.items process) (flags_at slice.now.asked.items process)
        (value_of values.now process) process (slice_index slice.now.least.items process)
        steps.old.items steps.new.items) }
{
    let points = row(&slice.rows, process);
    let asked = flags_of(&slice.asked, process);
    let numbers = numbers_of(values, process);
    let least = slice.least[process];
    add_steps(points, asked, numbers, process, least, steps)
}

/// The steps of a slice, each with what it adds to a sum of these values. Their keys are 0. What is wanted is there for
/// the contract alone. Each point of the slice is looked at once. There is no step for a point that is idle.
///
/// # Errors
/// An allocation was refused.
pub fn steps_of<'a, G: GoodCounts>(
    alloc: Global,
    computation: &Computation<'_>,
    _wanted: &G,
    slice: &'a Slice,
    values: &[Vec<i128>],
) -> Result<Vec<Step<'a>>, AllocError>
    requires slice { IsSlice computation.now.events (G.good _wanted.now) slice.now }
    requires values { AreValues computation.now.events values.now }
    ensures { IfOk result (λ steps. AreStepsOf computation.now.events (G.good _wanted.now) values.now
        slice.now.least.items steps.items) }
{
    computation.limits();
    let mut steps = Vec::new(alloc);
    for process in 0..computation.processes() {
        add_steps_of(computation, _wanted, slice, values, process, &mut steps)?;
    }
    Ok(steps)
}
