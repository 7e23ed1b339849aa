//! Checks a report against the session in files.
ghost use Rattle.app_arguments.specs.Statuses.{LeavesOf, OfFinding, UnreadClaim, sources_of};
ghost use Rattle.app_arguments.specs.Views.{format_view, session_view};
ghost use Rattle.app_host.specs.Faults.{ending_view};
ghost use Rattle.app_host.specs.FileSources.{ReadLeaves};
ghost use Rattle.app_host.specs.Formats.{IsFindingIn, finding_text};
ghost use Rattle.def_format.specs.Limits.{report_byte_limit};
ghost use Rattle.def_judgement.specs.Writes.{whole_source};
ghost use Rattle.judge_check.specs.Views.{finding_view};
ghost use Rattle.judge_session.specs.Inquiries.{inquiry_view};
ghost use Rattle.pd_spec.specs.Views.{options_view};
ghost use Rattle.std.specs.Prelude.{◌≡◌, ◌≤◌, All, IfOk, false, length, map};

use super::claim_files::read_claim;
use super::flushed_output::write_flushed;
use super::world::{System, World};
use app_arguments::{Format, SessionNames};
use def_format::REPORT_BYTE_LIMIT;
use def_judgement::clean_is_clean;
use judge_check::{Finding, text};
use judge_draw::finding_of;
use judge_findings::finding_json;
use judge_session::EngineFault;
use pd_engine::{ByteSource, Inquiry};
use pd_spec::Options;
use std::alloc::{AllocError, Global};
use std::io::Write;

/// The text of what a check finds, in this format.
///
/// # Errors
/// Out of memory.
fn finding_text(alloc: Global, finding: &Finding, format: Format) -> Result<Vec<u8>, AllocError>
    ensures { IfOk result (λ text. text.items ≡ finding_text (format_view format) (finding_view finding.now)) }
{
    match format {
        Format::Plain => text(alloc, finding),
        Format::Json => finding_json(alloc, finding),
    }
}

/// Checks a report by a document, with what is asked, and the streams, writes what is found in this format, and flushes
/// the output. It reports whether nothing that it found is bad.
///
/// # Errors
/// `Memory` leaves nothing written. `Write` leaves a part of the text written, or all of it if only the flush failed.
fn check_read<Y: System, R: ByteSource + Send + Drop, O: Write>(
    world: &World<'_, Y>,
    inquiry: Inquiry<'_, '_, '_>,
    report: &[u8],
    streams: Vec<R>,
    format: Format,
    output: &mut O,
) -> Result<bool, EngineFault>
    requires open { All (λ stream. R.has_ended stream ≡ false) streams.items }
    requires short { length report.now ≤ report_byte_limit }
    ensures { ReadLeaves (OfFinding (IsFindingIn (format_view format)) (whole_source report.now)
        (map R.left streams.items) (inquiry_view inquiry.entry)) (ending_view result) (O.contents output.old)
        (O.contents output.new) }
{
    clean_is_clean();
    let finding = finding_of(world.rt, world.alloc, inquiry, report, streams)?;
    let text = finding_text(world.alloc, &finding, format)?;
    match write_flushed(&text, output) {
        Ok(()) => Ok(finding.is_clean()),
        Err(fault) => Err(fault),
    }
}

/// What a check finds of a report by a document, with what is asked, and streams, all of which were read before. It is
/// empty if memory runs out, or the report has more than `REPORT_BYTE_LIMIT` bytes.
pub fn check_seen<Y: System>(
    world: &World<'_, Y>,
    document: &[u8],
    options: &Options<'_>,
    report: &[u8],
    streams: Vec<&[u8]>,
) -> Vec<u8> {
    let mut found = Vec::new(world.alloc);
    if report.len() <= REPORT_BYTE_LIMIT {
        let inquiry = Inquiry { document, options };
        let _ = check_read(world, inquiry, report, streams, Format::Plain, &mut found);
    }
    found
}

/// Opens the files of a check, the document, the report and then the streams, reads the document and the report, checks
/// the report by the document and the streams, writes what is found in this format, and flushes the output. It reports
/// whether nothing that it found is bad. All files are opened before one is read.
///
/// # Errors
/// `Read`, if a file can't be opened, or the document or the report can't be read, or the report has more than
/// `REPORT_BYTE_LIMIT` bytes, and `Memory` leave nothing written. `Write` leaves a part of the text written, or all of
/// it if only the flush failed.
pub fn check_files<Y: System, O: Write>(
    world: &World<'_, Y>,
    report: &str,
    names: &SessionNames<'_>,
    format: Format,
    output: &mut O,
) -> Result<bool, EngineFault>
    ensures { LeavesOf (options_view names.now.options) (Y.Files.file_of world.now.files.now names.now.spec.now)
        (UnreadClaim (Y.Files.file_of world.now.files.now) names.now.spec.now report.now (session_view names.now).1)
        (OfFinding (IsFindingIn (format_view format)) (Y.Files.file_of world.now.files.now report.now).source
        (sources_of (map (Y.Files.file_of world.now.files.now) (session_view names.now).1)))
        (ending_view result) (O.contents output.old) (O.contents output.new) }
{
    match read_claim(world, report, names) {
        Ok(read) => {
            let streams = read.streams;
            let inquiry = Inquiry {
                document: &read.document,
                options: &names.options,
            };
            check_read(world, inquiry, &read.report, streams, format, output)
        }
        Err(fault) => Err(fault),
    }
}
