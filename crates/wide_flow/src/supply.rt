//! What a step lacks, it takes.
ghost use Rattle.wide_flow.specs.Parts.{IsPart};
ghost use Rattle.wide_flow.specs.Rows.{AreRows};
ghost use Rattle.wide_flow.specs.Steps.{AreSteps, is_negative};
ghost use Rattle.std.specs.Prelude.{◌≡◌, ◌≢◌, ◌+◌, ◌<◌, OnOk, false, length, slice_index, ℕ};

use super::pay::pay;
use super::search::search;
use super::step::Step;
use super::takes::Flow;
use std::alloc::{AllocError, Global};

/// Lets step `e` take what it lacks from steps in its past, or freezes what it has reached.
///
/// # Errors
/// An allocation was refused.
pub(crate) fn supply(
    alloc: Global,
    steps: &[Step<'_>],
    rows: &[Vec<usize>],
    flow: &mut Flow,
    frozen: &mut Vec<usize>,
    places: &mut [usize],
    jumps: &mut [usize],
    e: usize,
) -> Result<(), AllocError>
    requires steps { AreSteps (length rows.now) steps.now }
    requires rows { AreRows (length rows.now) steps.now rows.now }
    requires part { IsPart (length rows.now) steps.now rows.now flow.old frozen.old.items e e }
    requires there { e < length steps.now }
    requires positive { is_negative steps.now e ≡ false }
    requires jumps { length jumps.old ≡ length steps.now }
    requires places { length places.old ≡ length steps.now }
    ensures part { OnOk result (IsPart (length rows.now) steps.now rows.now flow.new frozen.new.items (e + 1) (e + 1)) }
    ensures same { OnOk result ((s : ℕ) → s ≢ e → is_negative steps.now s ≡ false
        → slice_index flow.new.left.items s ≡ slice_index flow.old.left.items s) }
{
    'lacking: while flow.left[e] > 0 {
        let found = search(alloc, steps, rows, flow, frozen, places, jumps, e)?;
        match found.payer {
            Some(payer) => pay(steps, flow, &found.reached, e, payer.at, payer.step)?,
            None => {
                *frozen = found.tops;
                return Ok(());
            }
        }
    }
    Ok(())
}
