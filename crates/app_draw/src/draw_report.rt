//! Draws a report that has been read.
ghost use Rattle.app_draw.specs.Drawings.{DrawReadLeaves, DrawsReport, Finishes};
ghost use Rattle.judge_session.specs.Inquiries.{inquiry_view};
ghost use Rattle.out_picture.specs.Scopes.{scope_view};
ghost use Rattle.std.specs.Prelude.{◌≡◌, ◌++◌, ◌⊎◌, All, IfErr, IfOk, false, map};

use app_host::{System, World};
use judge_draw::{DrawOutcome, draw};
use judge_session::EngineFault;
use out_picture::DrawOptions;
use pd_engine::{ByteSource, Inquiry};
use read_notes::EventNote;
use std::alloc::{AllocError, Global};
use std::io::Write;

/// What is reported if there is no picture: a line, and the text that says why.
///
/// # Errors
/// Out of memory.
pub(crate) fn notice(alloc: Global, heading: &[u8], why: &[u8]) -> Result<Vec<u8>, AllocError>
    ensures { IfOk result (λ notice. notice.items ≡ heading.now ++ why.now) }
{
    let mut notice = Vec::from_slice(alloc, heading)?;
    notice.extend_from_slice(why)?;
    Ok(notice)
}

/// Flushes the output after a picture, and makes what is reported of a finding.
fn finish<O: Write>(
    alloc: Global,
    drawing: DrawOutcome,
    output: &mut O,
) -> Result<DrawOutcome, EngineFault>
    ensures { Finishes drawing result (O.contents output.old) (O.contents output.new) }
{
    match drawing {
        DrawOutcome::Written => {
            if output.flush().is_err() {
                return Err(EngineFault::Write);
            }
            Ok(DrawOutcome::Written)
        }
        DrawOutcome::CycleWritten => {
            if output.flush().is_err() {
                return Err(EngineFault::Write);
            }
            Ok(DrawOutcome::CycleWritten)
        }
        DrawOutcome::Refused(found) => {
            let heading = b"monitor: no picture, for a check finds:\n";
            Ok(DrawOutcome::Refused(notice(alloc, heading, &found)?))
        }
        DrawOutcome::NoPredicate => Ok(DrawOutcome::NoPredicate),
        DrawOutcome::NoEvidence => Ok(DrawOutcome::NoEvidence),
    }
}

/// Draws a report by its bytes, a document, with what is asked, the streams, and notes on their events, writes the
/// picture, and flushes the output.
///
/// # Errors
/// `Memory` leaves nothing written. `Write` leaves a part of the picture written, or all of it if only the flush
/// failed.
pub(crate) fn draw_report<Y: System, R: ByteSource + Send + Drop, O: Write>(
    world: &World<'_, Y>,
    inquiry: Inquiry<'_, '_, '_>,
    report: &[u8],
    streams: Vec<R>,
    scope: &DrawOptions<'_>,
    notes: &[EventNote],
    output: &mut O,
) -> Result<DrawOutcome, EngineFault>
    requires open { All (λ stream. R.has_ended stream ≡ false) streams.items }
    ensures left { DrawReadLeaves (DrawsReport report.now (map R.left streams.items) (scope_view scope.now)
        (inquiry_view inquiry.entry)) result (O.contents output.old) (O.contents output.new) }
    ensures err { IfErr result (λ fault. (fault ≡ EngineFault.Memory) ⊎ (fault ≡ EngineFault.Write)) }
{
    let drawing = draw(
        world.rt,
        world.alloc,
        inquiry,
        report,
        streams,
        scope,
        notes,
        output,
    )?;
    finish(world.alloc, drawing, output)
}
