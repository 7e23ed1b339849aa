//! Opens the files of a run.
ghost use Rattle.app_test.specs.Jobs.{IsFolderJob, IsJobOf, IsReadJob, IsReady};
ghost use Rattle.def_format.specs.Documents.{DocumentFault, IsDocument, IsRefusedDocument, inquiry_of};
ghost use Rattle.judge_runs.specs.Runs as runs;
ghost use Rattle.judge_runs.specs.Views.{outcome_view, wishes_view};
ghost use Rattle.judge_runs.specs.Wishes as wished;
ghost use Rattle.judge_runs.specs.Wishes.{first_unnamed, names_of};
ghost use Rattle.pd_spec.specs.Views.{document_view, options_view};
ghost use Rattle.std.specs.List.{AllZip};
ghost use Rattle.std.specs.Prelude.{◌≡◌, All, IfOk, IsOkUnless, List, None, map, string_bytes};

use super::job::Job;
use super::run_bundle::bundle_job;
use super::run_document::read_run_document;
use super::run_files::document_in;
use super::run_streams::open_streams;
use super::unopened::Unopened;
use app_host::{FileSource, NotedSource, System, World, is_out_of_memory};
use def_judgement::one_document;
use judge_bundles::is_bundle_name;
use judge_runs::{Outcome, Wish, first_unnamed};
use judge_session::EngineFault;
use pd_spec::{Options, Spec};

/// What comes of a run whose document in the file of this name isn't read for this fault: `Read` or `Memory`, since the
/// reading of a document has no other.
///
/// # Errors
/// `Memory`.
fn unread_outcome(path: String, fault: EngineFault) -> Result<Outcome, EngineFault>
    ensures outcome { IfOk result (λ outcome. (fault ≡ EngineFault.Read)
        × (outcome_view outcome ≡ runs.Unread (string_bytes path))) }
    ensures err { IsOkUnless result EngineFault.Memory }
{
    match fault {
        EngineFault::Read => Ok(Outcome::Unread(path)),
        EngineFault::Memory | EngineFault::Write | EngineFault::BundleLong => {
            Err(EngineFault::Memory)
        }
    }
}

/// What is left to do of a run whose document is refused: none of its streams is opened.
fn refused_job<'n, Y: System>(
    world: &World<'n, Y>,
    folder: &str,
    document: Vec<u8>,
    options: &Options<'_>,
) -> Job<NotedSource<'n, <Y::Files as FileSource>::File>>
    requires { (fault : DocumentFault) × IsRefusedDocument (inquiry_of (options_view options.now) document.items)
        fault }
    ensures job { (wishes : List wished.Condition) → IsReadJob (λ stream. Y.Files.File.left stream.source)
        (Y.Files.file_of world.now.files.now) (options_view options.now) wishes folder.now document.items result }
    ensures ready { IsReady (λ stream. Y.Files.File.has_ended stream.source) result }
{
    one_document();
    let streams = Vec::new(world.alloc);
    Job::Judge(document, streams)
}

/// What is left to do of a run whose document has each predicate that is wished for: the streams are opened.
///
/// # Errors
/// `Memory`.
fn streams_job<'n, Y: System>(
    world: &World<'n, Y>,
    folder: &str,
    document: Vec<u8>,
    options: &Options<'_>,
    spec: &Spec,
) -> Result<Job<NotedSource<'n, <Y::Files as FileSource>::File>>, EngineFault>
    requires { IsDocument (inquiry_of (options_view options.now) document.items) (document_view spec.now) }
    ensures job { IfOk result (λ job. (wishes : List wished.Condition)
        → first_unnamed (names_of (document_view spec.now).predicates) wishes ≡ None
        → IsReadJob (λ stream. Y.Files.File.left stream.source) (Y.Files.file_of world.now.files.now)
        (options_view options.now) wishes folder.now document.items job) }
    ensures ready { IfOk result (IsReady (λ stream. Y.Files.File.has_ended stream.source)) }
    ensures err { IsOkUnless result EngineFault.Memory }
{
    one_document();
    match open_streams(world, folder, spec) {
        Ok(streams) => Ok(Job::Judge(document, streams)),
        Err(unopened) => match unopened {
            Unopened::Stream(file) => Ok(Job::Done(Outcome::Unread(file))),
            Unopened::Memory => Err(EngineFault::Memory),
        },
    }
}

/// What is left to do of a run with this document: each predicate that is wished for is looked up in it, and then the
/// streams are opened.
///
/// # Errors
/// `Memory`.
fn document_job<'n, Y: System>(
    world: &World<'n, Y>,
    folder: &str,
    document: Vec<u8>,
    options: &Options<'_>,
    spec: &Spec,
    wishes: &[Wish<'_>],
) -> Result<Job<NotedSource<'n, <Y::Files as FileSource>::File>>, EngineFault>
    requires { IsDocument (inquiry_of (options_view options.now) document.items) (document_view spec.now) }
    ensures job { IfOk result (IsReadJob (λ stream. Y.Files.File.left stream.source)
        (Y.Files.file_of world.now.files.now) (options_view options.now) (wishes_view wishes.now) folder.now
        document.items) }
    ensures ready { IfOk result (IsReady (λ stream. Y.Files.File.has_ended stream.source)) }
    ensures err { IsOkUnless result EngineFault.Memory }
{
    match first_unnamed(wishes, spec.predicates()) {
        Some(name) => Ok(Job::Done(Outcome::Unnamed(String::from_str(world.alloc, name)?))),
        None => streams_job(world, folder, document, options, spec),
    }
}

/// What is left to do of a run by the bytes that were read of its document, with what is asked.
///
/// # Errors
/// `Memory`.
fn read_job<'n, Y: System>(
    world: &World<'n, Y>,
    folder: &str,
    document: Vec<u8>,
    options: &Options<'_>,
    wishes: &[Wish<'_>],
) -> Result<Job<NotedSource<'n, <Y::Files as FileSource>::File>>, EngineFault>
    ensures job { IfOk result (IsReadJob (λ stream. Y.Files.File.left stream.source)
        (Y.Files.file_of world.now.files.now) (options_view options.now) (wishes_view wishes.now) folder.now
        document.items) }
    ensures ready { IfOk result (IsReady (λ stream. Y.Files.File.has_ended stream.source)) }
    ensures err { IsOkUnless result EngineFault.Memory }
{
    match Spec::read_with_options(world.alloc, &document, options) {
        Ok(spec) => document_job(world, folder, document, options, &spec, wishes),
        Err(fault) => {
            if is_out_of_memory(&fault) {
                return Err(EngineFault::Memory);
            }
            Ok(refused_job(world, folder, document, options))
        }
    }
}

/// What is left to do of the run in this folder once its files are open: its document is read, each predicate that is
/// wished for is looked up in it, with what is asked beside it, and the streams are opened in its order. A file that
/// can't be opened or read and a predicate that isn't there are what comes of the run.
///
/// # Errors
/// `Memory`.
fn folder_job<'n, Y: System>(
    world: &World<'n, Y>,
    folder: &str,
    options: &Options<'_>,
    wishes: &[Wish<'_>],
) -> Result<Job<NotedSource<'n, <Y::Files as FileSource>::File>>, EngineFault>
    ensures job { IfOk result (IsFolderJob (λ stream. Y.Files.File.left stream.source)
        (Y.Files.file_of world.now.files.now) (options_view options.now) (wishes_view wishes.now) folder.now) }
    ensures ready { IfOk result (IsReady (λ stream. Y.Files.File.has_ended stream.source)) }
    ensures err { IsOkUnless result EngineFault.Memory }
{
    let path = document_in(world.alloc, folder)?;
    match read_run_document(world, &path) {
        Ok(document) => read_job(world, folder, document, options, wishes),
        Err(fault) => {
            let outcome = unread_outcome(path, fault)?;
            Ok(Job::Done(outcome))
        }
    }
}

/// What is left to do of the run of this name once its files are open: it is a bundle, if its name is such, and else a
/// folder.
///
/// # Errors
/// `Memory`.
pub(crate) fn job_of<'n, Y: System>(
    world: &World<'n, Y>,
    name: &str,
    options: &Options<'_>,
    wishes: &[Wish<'_>],
) -> Result<Job<NotedSource<'n, <Y::Files as FileSource>::File>>, EngineFault>
    ensures job { IfOk result (IsJobOf (λ stream. Y.Files.File.left stream.source)
        (Y.Files.file_of world.now.files.now) (options_view options.now) (wishes_view wishes.now) name.now) }
    ensures ready { IfOk result (IsReady (λ stream. Y.Files.File.has_ended stream.source)) }
    ensures err { IsOkUnless result EngineFault.Memory }
{
    if is_bundle_name(name) {
        return bundle_job(world, name);
    }
    folder_job(world, name, options, wishes)
}

/// What is left to do of the runs of these names, in their order, once their files are open.
///
/// # Errors
/// `Memory`.
pub(crate) fn jobs_of<'n, Y: System>(
    world: &World<'n, Y>,
    names: &[&str],
    options: &Options<'_>,
    wishes: &[Wish<'_>],
) -> Result<Vec<Job<NotedSource<'n, <Y::Files as FileSource>::File>>>, EngineFault>
    ensures jobs { IfOk result (λ jobs. AllZip (IsJobOf (λ stream. Y.Files.File.left stream.source)
        (Y.Files.file_of world.now.files.now) (options_view options.now) (wishes_view wishes.now))
        (map (λ name. name.now) names.now) jobs.items) }
    ensures ready { IfOk result (λ jobs. All (IsReady (λ stream. Y.Files.File.has_ended stream.source)) jobs.items) }
    ensures err { IsOkUnless result EngineFault.Memory }
{
    let mut jobs = Vec::new(world.alloc);
    for name in names {
        jobs.push(job_of(world, name, options, wishes)?)?;
    }
    Ok(jobs)
}
