//! Draws a session by the report that is due.
ghost use Rattle.app_draw.specs.Drawings.{DrawReadLeaves, DrawsDue, IsUndrawn, OfOwnDrawing};
ghost use Rattle.def_format.specs.Reports.{report_text};
ghost use Rattle.def_judgement.specs.Writes.{whole_source};
ghost use Rattle.judge_session.specs.Inquiries.{inquiry_view};
ghost use Rattle.pd_engine.specs.SessionReports.{IsTrueReportOfInputs};
ghost use Rattle.pd_report.specs.Views.{report_view};
ghost use Rattle.out_picture.specs.Scopes.{scope_view};
ghost use Rattle.std.specs.Prelude.{◌≡◌, ◌⊎◌, All, IfErr, false, map, true};

use super::draw_report::{draw_report, notice};
use super::whole_files::{readers_of, whole_streams};
use app_host::{LevelGate, System, World};
use judge_draw::DrawOutcome;
use judge_session::EngineFault;
use out_picture::DrawOptions;
use pd_engine::{ByteSource, Inquiry, Refusal, Report, report_inquiry};
use pd_gather::WholeBytes;
use read_notes::EventNote;
use std::io::Write;

/// Whether a report is a refusal, but for a causal cycle.
fn is_undrawn(report: &Report) -> bool
    ensures yes { result ≡ true → IsUndrawn (report_view report.now) }
{
    match report {
        Report::Judged { .. } => false,
        Report::Refused(refusal) => !matches!(refusal, Refusal::Cycle(_)),
    }
}

/// Draws the report that is due of a document, with what is asked, and the streams, writes the picture, and flushes the
/// output; of a session that is refused, but for a causal cycle, there is no picture.
///
/// # Errors
/// `Memory` leaves nothing written. `Write` leaves a part of the picture written, or all of it if only the flush
/// failed.
fn draw_due<Y: System, O: Write>(
    world: &World<'_, Y>,
    inquiry: Inquiry<'_, '_, '_>,
    report: &Report,
    streams: Vec<WholeBytes<'_>>,
    scope: &DrawOptions<'_>,
    notes: &[EventNote],
    output: &mut O,
) -> Result<DrawOutcome, EngineFault>
    requires right { IsTrueReportOfInputs (inquiry_view inquiry)
        (map (λ reader. whole_source reader.rest.now) streams.items) (report_view report.now) }
    ensures left { DrawReadLeaves (DrawsDue (report_text (report_view report.now))
        (map (λ reader. whole_source reader.rest.now) streams.entry.items) (scope_view scope.now)
        (inquiry_view inquiry.entry)) result (O.contents output.old) (O.contents output.new) }
    ensures err { IfErr result (λ fault. (fault ≡ EngineFault.Memory) ⊎ (fault ≡ EngineFault.Write)) }
{
    let text = pd_report::text(world.alloc, report)?;
    if is_undrawn(report) {
        let heading = b"monitor: no picture, for the session is refused:\n";
        return Ok(DrawOutcome::Refused(notice(world.alloc, heading, &text)?));
    }
    draw_report(world, inquiry, &text, streams, scope, notes, output)
}

/// Reads the streams, judges a document, with what is asked, and these, draws the report, writes the picture, and
/// flushes the output. The report is put into `due` once it is there.
///
/// # Errors
/// `Read`, if a stream can't be read or has more than `STREAM_BYTE_LIMIT` bytes, and `Memory` leave nothing written.
/// `Write` leaves a part of the picture written, or all of it if only the flush failed.
pub(crate) fn draw_own<Y: System, R: ByteSource + Send + Drop, O: Write>(
    world: &World<'_, Y>,
    inquiry: Inquiry<'_, '_, '_>,
    streams: Vec<R>,
    scope: &DrawOptions<'_>,
    notes: &[EventNote],
    due: &mut Option<Report>,
    output: &mut O,
) -> Result<DrawOutcome, EngineFault>
    requires { All (λ stream. R.has_ended stream ≡ false) streams.items }
    ensures { DrawReadLeaves (OfOwnDrawing (map R.left streams.items) (scope_view scope.now)
        (inquiry_view inquiry.entry)) result (O.contents output.old) (O.contents output.new) }
{
    let read = match whole_streams(world.alloc, streams) {
        Ok(read) => read,
        Err(fault) => return Err(fault),
    };
    let readers = readers_of(world.alloc, &read)?;
    let gate = LevelGate::new(world.files);
    let report = report_inquiry(world.rt, world.alloc, inquiry, readers, 1, &gate)?;
    let readers = readers_of(world.alloc, &read)?;
    let end = draw_due(world, inquiry, &report, readers, scope, notes, output);
    *due = Some(report);
    end
}
