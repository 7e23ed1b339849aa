//! Writes the lines of runs, one after another.
ghost use Rattle.app_bundle.specs.Bundles.{BundleLeaves};
ghost use Rattle.app_host.specs.Faults.{ending_view};
ghost use Rattle.std.specs.Prelude.{map};

use super::run::line_of_run;
use app_host::{System, World, write_flushed};
use judge_session::EngineFault;
use std::io::Write;

/// Writes the line of the run in each of these folders, in their order. The output is flushed after each line. It gives
/// whether each run could be read.
///
/// # Errors
/// `Memory` leaves the lines of the runs before written. `Write` leaves a part of the text written, or all of it if
/// only the last flush failed.
pub fn bundle_runs<Y: System, O: Write>(
    world: &World<'_, Y>,
    runs: &[&str],
    output: &mut O,
) -> Result<bool, EngineFault>
    ensures { BundleLeaves (Y.Files.file_of world.now.files.now) (map (λ name. name.now) runs.now) (ending_view result)
        (O.contents output.old) (O.contents output.new) }
{
    let mut all = true;
    for folder in runs {
        let run = line_of_run(world, folder)?;
        write_flushed(&run.line, output)?;
        all = all && run.is_session;
    }
    Ok(all)
}
