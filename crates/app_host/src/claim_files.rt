//! The files of a report and of the session that it is said to be of.
ghost use Rattle.app_arguments.specs.Statuses.{IsLongReport, UnreadClaim, sources_of};
ghost use Rattle.app_arguments.specs.Views.{session_view};
ghost use Rattle.app_host.specs.FileSources.{IsReadOf, Knows};
ghost use Rattle.def_format.specs.Limits.{report_byte_limit};
ghost use Rattle.def_judgement.specs.Writes.{IsWholeInput};
ghost use Rattle.std.specs.List.{AllZip};
ghost use Rattle.std.specs.Prelude.{◌≡◌, ◌≤◌, ◌⊎◌, All, Err, IfErr, IfOk, Some, false, map, vec_len};

use super::file_source::FileSource;
use super::noted_source::NotedSource;
use super::session_files::{open_noted, open_streams, read_document};
use super::world::{System, World};
use app_arguments::SessionNames;
use def_format::REPORT_BYTE_LIMIT;
use judge_session::{EngineFault, read_upto};
use pd_engine::{ByteSource, within_limit};
use std::alloc::Global;

/// The bytes of a document and of a report, and the streams, which are open and unread.
#[derive(Drop)]
pub struct ClaimFiles<R: Drop> {
    pub document: Vec<u8>,
    pub report: Vec<u8>,
    pub streams: Vec<R>,
}

/// The bytes of a report, of which there are at most `REPORT_BYTE_LIMIT`.
///
/// # Errors
/// `Read`, if there are more or a read fails, and `Memory`.
fn read_report<R: ByteSource + Drop>(alloc: Global, reader: R) -> Result<Vec<u8>, EngineFault>
    requires { R.has_ended reader ≡ false }
    ensures whole { IfOk result (λ bytes. IsWholeInput (R.left reader) bytes.items) }
    ensures short { IfOk result (λ bytes. vec_len bytes ≤ report_byte_limit) }
    ensures unread { (R.left reader).fails ≡ Some false → result ≡ Err EngineFault.Read
        → IsLongReport (R.left reader) }
    ensures err { IfErr result (λ fault. (fault ≡ EngineFault.Memory) ⊎ (fault ≡ EngineFault.Read)) }
{
    let bytes = read_upto(alloc, reader, REPORT_BYTE_LIMIT)?;
    within_limit(bytes, REPORT_BYTE_LIMIT, EngineFault::Read)
}

/// Opens the document, the report and then the streams, and reads the first two. All files are opened before one is
/// read, and of each that can't be it is noted why.
///
/// # Errors
/// `Read`, if a file can't be opened, or the document or the report can't be read, or the report has more than
/// `REPORT_BYTE_LIMIT` bytes, and `Memory`.
pub fn read_claim<'n, Y: System>(
    world: &World<'n, Y>,
    report: &str,
    names: &SessionNames<'_>,
) -> Result<ClaimFiles<NotedSource<'n, <Y::Files as FileSource>::File>>, EngineFault>
    ensures document { IfOk result (λ read. IsReadOf read.document.items
        (Y.Files.file_of world.now.files.now names.now.spec.now).source) }
    ensures report { IfOk result (λ read. IsWholeInput (Y.Files.file_of world.now.files.now report.now).source
        read.report.items) }
    ensures short { IfOk result (λ read. vec_len read.report ≤ report_byte_limit) }
    ensures streams { IfOk result (λ read. AllZip Knows (sources_of (map (Y.Files.file_of world.now.files.now)
        (session_view names.now).1)) (map (λ stream. Y.Files.File.left stream.source) read.streams.items)) }
    ensures open { IfOk result (λ read. All (λ stream. Y.Files.File.has_ended stream.source ≡ false)
        read.streams.items) }
    ensures unread { result ≡ Err EngineFault.Read
        → UnreadClaim (Y.Files.file_of world.now.files.now) names.now.spec.now report.now (session_view names.now).1 }
    ensures err { IfErr result (λ fault. (fault ≡ EngineFault.Memory) ⊎ (fault ≡ EngineFault.Read)) }
{
    let document = open_noted(world.alloc, world.files, names.spec, world.notes.document());
    let report = open_noted(world.alloc, world.files, report, world.notes.report());
    let streams = open_streams(world, &names.streams);
    let (document, report) = (document?, report?);
    let streams = streams?;
    let document = read_document(world.alloc, document)?;
    let report = read_report(world.alloc, report)?;
    Ok(ClaimFiles {
        document,
        report,
        streams,
    })
}
