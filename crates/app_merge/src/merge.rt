//! Merges the lines of an input, and writes their summary.
ghost use Rattle.app_merge.specs.Merges.{IsFaultyAt, IsSummaryOf, MergeLeaves, line_notice};
ghost use Rattle.app_merge.specs.Steps.{IsRefusal};
ghost use Rattle.app_merge.specs.Views.{wrong_view};
ghost use Rattle.def_judgement.specs.Writes.{Source};
ghost use Rattle.judge_summary.specs.Conclusions.{conclusion_of};
ghost use Rattle.judge_summary.specs.Summaries.{summary_text};
ghost use Rattle.std.specs.Io.KnownBytes.{Appends};
ghost use Rattle.std.specs.Prelude.{◌≡◌, ◌≤◌, ℕ, IfOk, IsOkUnless, OnErr, OnOk, false, length, take};

use super::input_lines::summary_of;
use super::notice::line_notice;
use super::outcome::{LineWrong, MergeOutcome};
use app_host::{System, World};
use judge_session::EngineFault;
use judge_summary::{Conclusion, Summary};
use pd_gather::ByteSource;
use pd_report::write_all;
use std::alloc::Global;
use std::io::Write;

/// Writes the whole text, and flushes the output.
///
/// # Errors
/// `Write` leaves a prefix of the text written, or all of it if only the flush failed.
fn write_text<O: Write>(text: &[u8], output: &mut O) -> Result<(), EngineFault>
    ensures written { OnOk result (Appends (O.contents output.old) (O.contents output.new) text.now) }
    ensures part { OnErr result ((count : ℕ) × (count ≤ length text.now)
        × Appends (O.contents output.old) (O.contents output.new) (take count text.now)) }
    ensures err { IsOkUnless result EngineFault.Write }
{
    if write_all(text, output).is_err() {
        return Err(EngineFault::Write);
    }
    if output.flush().is_err() {
        return Err(EngineFault::Write);
    }
    Ok(())
}

/// Writes a summary.
///
/// # Errors
/// `Memory` leaves nothing written. `Write` leaves a part of the summary written, or all of it if only the flush
/// failed.
fn write_summary<O: Write>(
    alloc: Global,
    summary: &Summary,
    output: &mut O,
) -> Result<MergeOutcome, EngineFault>
    ensures { (input : Source) → IsSummaryOf input summary.now
        → MergeLeaves input result (O.contents output.old) (O.contents output.new) }
{
    let text = summary.text(alloc)?;
    match write_text(&text, output) {
        Ok(()) => Ok(MergeOutcome::Written(summary.conclusion())),
        Err(fault) => Err(fault),
    }
}

/// Says that a line is at fault.
///
/// # Errors
/// `Memory`.
fn refuse(alloc: Global, number: u64, wrong: LineWrong) -> Result<MergeOutcome, EngineFault>
    ensures notice { IfOk result (λ outcome. IsRefusal number (wrong_view wrong) outcome) }
    ensures err { IsOkUnless result EngineFault.Memory }
{
    let line = line_notice(alloc, number, wrong)?;
    Ok(MergeOutcome::Refused(number, wrong, line))
}

/// Merges all lines of the input, writes their summary, and flushes the output; or says which line is at fault, and
/// nothing is written then.
///
/// # Errors
/// `Read`, if the input can't be read, and `Memory` leave nothing written. `Write` leaves a part of the summary
/// written, or all of it if only the flush failed.
pub fn merge_lines<Y: System, I: ByteSource + Drop, O: Write>(
    world: &World<'_, Y>,
    input: I,
    output: &mut O,
) -> Result<MergeOutcome, EngineFault>
    requires { I.has_ended input ≡ false }
    ensures { MergeLeaves (I.left input) result (O.contents output.old) (O.contents output.new) }
{
    match summary_of(world.alloc, input) {
        Ok(Ok(summary)) => write_summary(world.alloc, &summary, output),
        Ok(Err((number, wrong))) => refuse(world.alloc, number, wrong),
        Err(fault) => Err(fault),
    }
}
