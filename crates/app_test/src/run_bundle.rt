//! Opens a run that is a bundle.
ghost use Rattle.app_test.specs.Jobs.{IsBundleJob, IsReady};
ghost use Rattle.def_format.specs.Documents as documents;
ghost use Rattle.judge_runs.specs.Wishes as wished;
ghost use Rattle.std.specs.Prelude.{IfOk, IsOkUnless, List};

use super::job::Job;
use app_host::{FileSource, NotedSource, System, World, open_noted};
use judge_runs::Outcome;
use judge_session::EngineFault;

/// What is left to do of the run that is the bundle in the file of this name: the file is opened, and nothing of it is
/// read. That it can't be opened is what comes of the run.
///
/// # Errors
/// `Memory`.
pub(crate) fn bundle_job<'n, Y: System>(
    world: &World<'n, Y>,
    name: &str,
) -> Result<Job<NotedSource<'n, <Y::Files as FileSource>::File>>, EngineFault>
    ensures job { IfOk result (λ job. (options : documents.Options) (wishes : List wished.Condition)
        → IsBundleJob (λ stream. Y.Files.File.left stream.source) (Y.Files.file_of world.now.files.now) options wishes
        name.now job) }
    ensures ready { IfOk result (IsReady (λ stream. Y.Files.File.has_ended stream.source)) }
    ensures err { IsOkUnless result EngineFault.Memory }
{
    let path = String::from_str(world.alloc, name)?;
    match open_noted(world.alloc, world.files, &path, None) {
        Ok(file) => Ok(Job::Bundle(path, file)),
        Err(_) => Ok(Job::Done(Outcome::Unread(path))),
    }
}
