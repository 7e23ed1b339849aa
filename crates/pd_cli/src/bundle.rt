//! Judges the bundle on the input.
ghost use Rattle.app_host.specs.Faults.{report_ending};
ghost use Rattle.app_arguments.specs.Statuses.{JudgementLeaves};
ghost use Rattle.std.specs.Prelude.{◌≡◌, false};

use app_arguments::Workers;
use app_host::{System, World};
use judge_session::EngineFault;
use pd_engine::{ByteSource, Gate, Report, write_bundle_report};
use std::io::Write;

/// Reads a bundle, judges it, writes its report, and flushes the output. It gives the report.
///
/// # Errors
/// As `write_bundle_report`, and `Write` too if the output can't be flushed.
pub(crate) fn judge_input<Y: System, I: ByteSource + Drop, G: Gate + Sync, O: Write>(
    world: &World<'_, Y>,
    input: I,
    gate: &G,
    output: &mut O,
) -> Result<Report, EngineFault>
    requires { I.has_ended input ≡ false }
    ensures { JudgementLeaves (I.left input) (report_ending result) (O.contents output.old) (O.contents output.new) }
{
    let report = write_bundle_report(
        world.rt,
        world.alloc,
        input,
        Workers::one().count(),
        gate,
        output,
    )?;
    if output.flush().is_err() {
        return Err(EngineFault::Write);
    }
    Ok(report)
}
