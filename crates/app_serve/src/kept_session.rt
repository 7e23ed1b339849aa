//! Keeps the session of a server as files of a folder.
ghost use Rattle.app_arguments.specs.Views.{text_view};
ghost use Rattle.app_serve.specs.declared.service_fault.ServiceFault.TheVariants as faults;
ghost use Rattle.std.specs.Prelude.{◌≡◌, ◌≢◌, ◌⊎◌, IfErr, None, true};

use super::host::Host;
use super::keeping::Keeping;
use super::notices::Notices;
use super::service_fault::ServiceFault;
use app_host::FileSource;
use judge_session::EngineFault;
use pd_engine::{Inquiry, Report, Spec, text};
use pd_spec::document_text;
use std::alloc::{AllocError, Global};
use std::io;
use std::io::Write;

/// The name of the document's file.
const DOCUMENT: &str = "session.json";

/// The name of the report's file.
const REPORT: &str = "report";

/// The name of a file of this folder.
fn path_in(alloc: Global, folder: &str, name: &str) -> Result<String, AllocError> {
    format!(in alloc; "{folder}/{name}")
}

/// The name of the file of the stream at this place, which is counted from 0, before its process is known.
fn numbered_path(alloc: Global, folder: &str, place: usize) -> Result<String, AllocError> {
    let number = (place as u64).saturating_add(1);
    format!(in alloc; "{folder}/{number}.stream")
}

/// Makes a file that has these bytes.
fn write_file<F: FileSource>(files: &F, path: &str, bytes: &[u8]) -> io::Result<()> {
    let mut file = files.create(path)?;
    file.write_all(bytes)?;
    file.flush()
}

/// Makes the folder, and the document's file in it, which says what was asked in place of what the document said. It
/// gives whether both are there; if not, it is noted why.
fn keep_document<F: FileSource, N>(
    host: &Host<'_, F, N>,
    folder: &str,
    inquiry: Inquiry<'_, '_, '_>,
) -> Result<bool, AllocError> {
    let document = document_text(host.alloc, inquiry.document, inquiry.options)?;
    if let Err(error) = host.files.make_folder(host.alloc, folder) {
        host.peers.note_unkept(host.alloc, folder, &error);
        return Ok(false);
    }
    let path = path_in(host.alloc, folder, DOCUMENT)?;
    if let Err(error) = write_file(host.files, &path, &document) {
        host.peers.note_unkept(host.alloc, &path, &error);
        return Ok(false);
    }
    Ok(true)
}

/// Makes the files of this many streams, the last one first. It gives none of them if one can't be made, and it is
/// noted why.
fn make_streams<'a, F: FileSource, N, T: Notices>(
    host: &Host<'a, F, N>,
    folder: &str,
    count: usize,
    notices: &'a T,
) -> Result<Option<Vec<Keeping<'a, F::Sink, T>>>, AllocError> {
    let mut kept = Vec::new(host.alloc);
    for place in (0..count).rev() {
        let path = numbered_path(host.alloc, folder, place)?;
        match host.files.create(&path) {
            Ok(file) => kept.push(Keeping::new(host.alloc, file, path, host.peers, notices))?,
            Err(error) => {
                host.peers.note_unkept(host.alloc, &path, &error);
                return Ok(None);
            }
        }
    }
    Ok(Some(kept))
}

/// Begins to keep a session, if it is to be kept: makes the folder of this name, unless there is an empty one, the
/// document's file in it, and those of the streams, and gives these, the last one first.
///
/// # Errors
/// `Unkept`, if one of these can't be made, as if the folder has a file already, and `Memory`.
pub fn begin_keeping<'a, F: FileSource, N, T: Notices>(
    host: &Host<'a, F, N>,
    inquiry: Inquiry<'_, '_, '_>,
    spec: &Spec,
    notices: &'a T,
) -> Result<Vec<Keeping<'a, F::Sink, T>>, ServiceFault>
    ensures { IfErr result (λ fault. ((fault ≡ faults.Unkept) × (text_view host.now.service.now.keep ≢ None))
        ⊎ (fault ≡ faults.Engine EngineFault.Memory)) }
{
    let Some(folder) = host.service.keep else {
        return Ok(Vec::new(host.alloc));
    };
    if !keep_document(host, folder, inquiry)? {
        return Err(ServiceFault::Unkept);
    }
    let count = spec.names().processes();
    match make_streams(host, folder, count, notices)? {
        Some(kept) => Ok(kept),
        None => Err(ServiceFault::Unkept),
    }
}

/// The name that the file of the stream at this place, which is counted from 0, has in this folder, and the one that it
/// is given once the stream has joined this process.
///
/// # Errors
/// Out of memory.
pub fn stream_names(
    alloc: Global,
    folder: &str,
    place: usize,
    process: &str,
) -> Result<(String, String), AllocError> {
    let numbered = numbered_path(alloc, folder, place)?;
    let named = format!(in alloc; "{folder}/{process}.stream")?;
    Ok((numbered, named))
}

/// Makes the file of a report.
fn keep_report<F: FileSource, N>(
    host: &Host<'_, F, N>,
    folder: &str,
    report: &Report,
) -> Result<(), AllocError> {
    let path = path_in(host.alloc, folder, REPORT)?;
    let bytes = text(host.alloc, report)?;
    if let Err(error) = write_file(host.files, &path, &bytes) {
        host.peers.note_unkept(host.alloc, &path, &error);
    }
    Ok(())
}

/// Ends the keeping of a session: makes the report's file, if there is a report. It gives whether all of the session is
/// kept that is to be.
pub fn end_keeping<F: FileSource, N>(host: &Host<'_, F, N>, report: Option<&Report>) -> bool
    ensures { host.now.service.now.keep ≡ None → result ≡ true }
{
    let Some(folder) = host.service.keep else {
        return true;
    };
    let is_reported = match report {
        Some(report) => keep_report(host, folder, report).is_ok(),
        None => true,
    };
    is_reported && !host.peers.has_failed()
}
