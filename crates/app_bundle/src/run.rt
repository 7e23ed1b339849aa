//! The line of a run.
ghost use Rattle.app_bundle.specs.Bundles.{IsFileOfRun, IsLineOfRun, IsSessionIn};
ghost use Rattle.app_bundle.specs.Bundles as bundles;
ghost use Rattle.app_bundle.specs.RunLines.{IsUnbundled, NamesFile, run_view};
ghost use Rattle.app_host.specs.FileSources.{IsReadOf};
ghost use Rattle.app_test.specs.Tests.{document_in};
ghost use Rattle.out_lines.specs.Lines.{line_text, session_data, unread_data};
ghost use Rattle.std.specs.Prelude.{◌≡◌, ◌++◌, IfErr, IfOk, IsOkUnless, false, map, string_bytes, true};

use super::run_line::RunLine;
use super::streams::streams_of;
use super::unbundled::Unbundled;
use app_host::{System, World, is_out_of_memory};
use app_test::{document_in, read_run_document};
use def_judgement::one_document;
use judge_session::EngineFault;
use out_lines::{session_line, unread_line};
use pd_spec::Spec;
use std::alloc::{AllocError, Global};

/// The session in a run's folder, once its document's text is read.
#[derive(Drop)]
struct Bundled {
    document: String,
    streams: Vec<String>,
}

/// The session in a run's folder with this document.
///
/// # Errors
/// That of the first stream that has one.
fn with_document<Y: System>(
    world: &World<'_, Y>,
    folder: &str,
    document: String,
) -> Result<Bundled, Unbundled>
    requires { IsReadOf (string_bytes document) (Y.Files.file_of world.now.files.now (document_in folder.now)).source }
    ensures session { IfOk result (λ bundled. IsSessionIn (Y.Files.file_of world.now.files.now) folder.now
        (string_bytes bundled.document) (map string_bytes bundled.streams.items)) }
    ensures none { IfErr result (IsUnbundled (Y.Files.file_of world.now.files.now)) }
    ensures file { IfErr result (NamesFile (IsFileOfRun (Y.Files.file_of world.now.files.now) folder.now)) }
{
    one_document();
    match Spec::read(world.alloc, document.as_bytes()) {
        Ok(spec) => {
            let streams = streams_of(world, folder, &spec)?;
            Ok(Bundled { document, streams })
        }
        Err(fault) => {
            if is_out_of_memory(&fault) {
                return Err(Unbundled::Memory);
            }
            let streams = Vec::new(world.alloc);
            Ok(Bundled { document, streams })
        }
    }
}

/// The session in a run's folder.
///
/// # Errors
/// `Unread`, if its document or a stream can't be opened or read, `NoText`, if one isn't UTF-8, and `Memory`.
fn session_in<Y: System>(world: &World<'_, Y>, folder: &str) -> Result<Bundled, Unbundled>
    ensures session { IfOk result (λ bundled. IsSessionIn (Y.Files.file_of world.now.files.now) folder.now
        (string_bytes bundled.document) (map string_bytes bundled.streams.items)) }
    ensures none { IfErr result (IsUnbundled (Y.Files.file_of world.now.files.now)) }
    ensures file { IfErr result (NamesFile (IsFileOfRun (Y.Files.file_of world.now.files.now) folder.now)) }
{
    let path = document_in(world.alloc, folder)?;
    match read_run_document(world, &path) {
        Ok(bytes) => match String::from_utf8(bytes) {
            Ok(document) => with_document(world, folder, document),
            Err(_) => Err(Unbundled::NoText(path)),
        },
        Err(EngineFault::Read) => Err(Unbundled::Unread(path)),
        Err(_) => Err(Unbundled::Memory),
    }
}

/// The line of a run that has no session, for this reason and the file of this name.
fn without_session(
    alloc: Global,
    folder: &str,
    reason: &str,
    file: &str,
) -> Result<RunLine, AllocError>
    ensures { IfOk result (λ run. run_view run ≡ record {
      is_session = false;
      line = line_text (unread_data folder.now (reason.now ++ file.now));
    }) }
{
    let mut error = String::from_str(alloc, reason)?;
    error.push_str(file)?;
    Ok(RunLine {
        is_session: false,
        line: unread_line(alloc, folder, &error)?,
    })
}

/// The line of this session in a run's folder.
fn with_session(alloc: Global, folder: &str, bundled: &Bundled) -> Result<RunLine, AllocError>
    ensures { IfOk result (λ run. run_view run ≡ record {
      is_session = true;
      line = line_text (session_data folder.now (string_bytes bundled.now.document)
          (map string_bytes bundled.now.streams.items));
    }) }
{
    Ok(RunLine {
        is_session: true,
        line: session_line(alloc, folder, &bundled.document, &bundled.streams)?,
    })
}

/// The line of the run in this folder.
///
/// # Errors
/// `Memory`.
pub(crate) fn line_of_run<Y: System>(
    world: &World<'_, Y>,
    folder: &str,
) -> Result<RunLine, EngineFault>
    ensures line { IfOk result (λ run. IsLineOfRun (Y.Files.file_of world.now.files.now) folder.now (run_view run)) }
    ensures err { IsOkUnless result EngineFault.Memory }
{
    match session_in(world, folder) {
        Ok(bundled) => Ok(with_session(world.alloc, folder, &bundled)?),
        Err(unbundled) => match unbundled {
            Unbundled::Unread(file) => Ok(without_session(world.alloc, folder, "unread ", &file)?),
            Unbundled::NoText(file) => {
                Ok(without_session(world.alloc, folder, "no UTF-8 in ", &file)?)
            }
            Unbundled::Memory => Err(EngineFault::Memory),
        },
    }
}
