//! Draws a session in files, with a report of it or by its own.
ghost use Rattle.app_arguments.specs.Statuses.{MayBeUnread, WritesUpTo, sources_of};
ghost use Rattle.app_arguments.specs.Views.{session_view};
ghost use Rattle.app_draw.specs.Drawings.{AreStreams, DrawLeaves, DrawReadLeaves, OfClaimed, OfFiles, draw_notice, draw_status};
ghost use Rattle.judge_session.specs.Inquiries.{inquiry_view};
ghost use Rattle.pd_spec.specs.Views.{options_view};
ghost use Rattle.out_picture.specs.Scopes.{scope_view};
ghost use Rattle.std.specs.Prelude.{◌≡◌, ◌<◌, ◌∷◌, [], All, IfOk, IsOkUnless, false, map, true, vec_len};

use super::draw_own::draw_own;
use super::draw_report::draw_report;
use super::whole_files::read_whole;
use app_arguments::SessionNames;
use app_ends::DrawnNotes;
use app_host::{
    MISUSED, REFUSED, SUCCESS, System, World, is_out_of_memory, read_session, report_fault,
    write_line,
};
use def_format::REPORT_BYTE_LIMIT;
use def_judgement::one_document;
use judge_draw::DrawOutcome;
use judge_session::EngineFault;
use out_picture::DrawOptions;
use pd_engine::{ByteSource, Inquiry, Report};
use pd_spec::Spec;
use read_notes::EventNote;
use std::alloc::{AllocError, Global};
use std::io::Write;

/// Whether this many files beside a document are streams alone: as many as it has processes are, and so is one.
///
/// # Errors
/// `Memory`.
fn are_streams(
    alloc: Global,
    inquiry: Inquiry<'_, '_, '_>,
    count: usize,
) -> Result<bool, EngineFault>
    ensures yes { IfOk result (λ are. are ≡ true → AreStreams (inquiry_view inquiry.entry) count) }
    ensures no { IfOk result (λ are. are ≡ false → ¬ AreStreams (inquiry_view inquiry.entry) count) }
    ensures err { IsOkUnless result EngineFault.Memory }
{
    one_document();
    if count <= 1 {
        return Ok(true);
    }
    match Spec::read_with_options(alloc, inquiry.document, inquiry.options) {
        Ok(spec) => Ok(spec.names().processes() == count),
        Err(fault) => {
            if is_out_of_memory(&fault) {
                return Err(EngineFault::Memory);
            }
            Ok(false)
        }
    }
}

/// Reads the report in the first of these files, draws it with a document, with what is asked, and the other files, the
/// streams, writes the picture, and flushes the output.
///
/// # Errors
/// `Read`, if the report can't be read or has more than `REPORT_BYTE_LIMIT` bytes, and `Memory` leave nothing written.
/// `Write` leaves a part of the picture written, or all of it if only the flush failed.
fn draw_claim<Y: System, R: ByteSource + Send + Drop, O: Write>(
    world: &World<'_, Y>,
    inquiry: Inquiry<'_, '_, '_>,
    files: Vec<R>,
    scope: &DrawOptions<'_>,
    notes: &[EventNote],
    output: &mut O,
) -> Result<DrawOutcome, EngineFault>
    requires some { 0 < vec_len files }
    requires open { All (λ file. R.has_ended file ≡ false) files.items }
    ensures { DrawReadLeaves (OfClaimed (map R.left files.items) (scope_view scope.now)
        (inquiry_view inquiry.entry)) result (O.contents output.old) (O.contents output.new) }
{
    let mut streams = files;
    let report = streams.remove(0);
    let report = read_whole(world.alloc, report, REPORT_BYTE_LIMIT)?;
    draw_report(world, inquiry, &report, streams, scope, notes, output)
}

/// Draws a document, with what is asked, and these files: the report that is due, if they are streams alone, and else
/// the report in the first of them. It writes the picture, and flushes the output. The report that is due is put into
/// `due` once it is there.
///
/// # Errors
/// As `draw_own` and `draw_claim`.
fn draw_session<Y: System, R: ByteSource + Send + Drop, O: Write>(
    world: &World<'_, Y>,
    inquiry: Inquiry<'_, '_, '_>,
    files: Vec<R>,
    scope: &DrawOptions<'_>,
    notes: &[EventNote],
    due: &mut Option<Report>,
    output: &mut O,
) -> Result<DrawOutcome, EngineFault>
    requires { All (λ file. R.has_ended file ≡ false) files.items }
    ensures { DrawReadLeaves (OfFiles (map R.left files.items) (scope_view scope.now) (inquiry_view inquiry.entry))
        result (O.contents output.old) (O.contents output.new) }
{
    if are_streams(world.alloc, inquiry, files.len())? {
        return draw_own(world, inquiry, files, scope, notes, due, output);
    }
    draw_claim(world, inquiry, files, scope, notes, output)
}

/// Opens the files of a picture, the document and then the others, reads the document, draws it, with what is asked,
/// and the other files, writes the picture, with these notes, and flushes the output. All files are opened before one
/// is read. The report that is due is put into `due` if it is drawn.
///
/// # Errors
/// `Read`, if a file can't be opened, or the document or, of the others, a report or a stream without a report can't be
/// read or has too many bytes, and `Memory` leave nothing written. `Write` leaves a part of the picture written, or all
/// of it if only the flush failed.
fn draw_files<Y: System, O: Write>(
    world: &World<'_, Y>,
    scope: &DrawOptions<'_>,
    names: &SessionNames<'_>,
    notes: &[EventNote],
    due: &mut Option<Report>,
    output: &mut O,
) -> Result<DrawOutcome, EngineFault>
    ensures { DrawLeaves (options_view names.now.options) (Y.Files.file_of world.now.files.now names.now.spec.now)
        (MayBeUnread (Y.Files.file_of world.now.files.now names.now.spec.now
        ∷ map (Y.Files.file_of world.now.files.now) (session_view names.now).1)
        (Y.Files.file_of world.now.files.now names.now.spec.now ∷ []))
        (OfFiles (sources_of (map (Y.Files.file_of world.now.files.now) (session_view names.now).1))
        (scope_view scope.now)) result (O.contents output.old) (O.contents output.new) }
{
    match read_session(world, names) {
        Ok(read) => {
            let files = read.streams;
            let inquiry = Inquiry {
                document: &read.document,
                options: &names.options,
            };
            draw_session(world, inquiry, files, scope, notes, due, output)
        }
        Err(fault) => Err(fault),
    }
}

/// Draws the files of a picture as `draw_files` does, with what was noted of the events, if there was memory to read
/// it.
///
/// # Errors
/// `Memory`, if there was none, and as `draw_files`.
pub fn draw_noted<Y: System, O: Write>(
    world: &World<'_, Y>,
    scope: &DrawOptions<'_>,
    names: &SessionNames<'_>,
    noted: &Result<DrawnNotes, AllocError>,
    due: &mut Option<Report>,
    output: &mut O,
) -> Result<DrawOutcome, EngineFault>
    ensures { DrawLeaves (options_view names.now.options) (Y.Files.file_of world.now.files.now names.now.spec.now)
        (MayBeUnread (Y.Files.file_of world.now.files.now names.now.spec.now
        ∷ map (Y.Files.file_of world.now.files.now) (session_view names.now).1)
        (Y.Files.file_of world.now.files.now names.now.spec.now ∷ []))
        (OfFiles (sources_of (map (Y.Files.file_of world.now.files.now) (session_view names.now).1))
        (scope_view scope.now)) result (O.contents output.old) (O.contents output.new) }
{
    match noted {
        Ok(noted) => draw_files(world, scope, names, noted.all(), due, output),
        Err(_) => Err(EngineFault::Memory),
    }
}

/// The exit status by how a run that draws ended, which is reported if no picture is written.
pub fn report_drawing<E: Write>(end: &Result<DrawOutcome, EngineFault>, errors: &mut E) -> u8
    ensures status { result ≡ draw_status end.now }
    ensures errors { WritesUpTo (λ text. text ≡ draw_notice end.now) (E.contents errors.old) (E.contents errors.new) }
{
    match end {
        Ok(drawing) => match drawing {
            DrawOutcome::Written | DrawOutcome::CycleWritten => {
                write_line(b"", errors);
                SUCCESS
            }
            DrawOutcome::Refused(notice) => {
                write_line(notice, errors);
                REFUSED
            }
            DrawOutcome::NoPredicate => {
                write_line(b"monitor: no predicate of this name\n", errors);
                MISUSED
            }
            DrawOutcome::NoEvidence => {
                write_line(b"monitor: no evidence of this kind\n", errors);
                MISUSED
            }
        },
        Err(fault) => report_fault(fault, errors),
    }
}
