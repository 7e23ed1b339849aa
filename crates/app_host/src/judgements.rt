//! Judges the session in files.
ghost use Rattle.app_arguments.specs.Statuses.{OfNamed, OfStreams, SessionLeaves};
ghost use Rattle.app_arguments.specs.Views.{session_view};
ghost use Rattle.app_host.specs.Faults.{judgement_ending, named_ending};
ghost use Rattle.app_host.specs.FileSources.{ReadLeaves};
ghost use Rattle.judge_runs.specs.Wishes.{Condition};
ghost use Rattle.app_arguments.specs.ConditionViews.{fail_on_view};
ghost use Rattle.judge_session.specs.Inquiries.{inquiry_view};
ghost use Rattle.pd_spec.specs.Views.{options_view};
ghost use Rattle.std.specs.Prelude.{◌≡◌, List, All, false, map};

use super::named::has_named;
use super::session_files::read_session;
use super::world::{System, World};
use app_arguments::{Judgement, Workers};
use judge_session::EngineFault;
use pd_engine::{ByteSource, Gate, Inquiry, Report, judge_inquiry};
use std::io::Write;

/// Judges a document, with what is asked, and the streams, writes the report, and flushes the output. It gives the
/// report.
///
/// # Errors
/// `Memory` leaves nothing written. `Write` leaves a part of the report written, or all of it if only the flush failed.
fn judge_read<Y: System, R: ByteSource + Send + Drop, G: Gate + Sync, O: Write>(
    world: &World<'_, Y>,
    inquiry: Inquiry<'_, '_, '_>,
    streams: Vec<R>,
    workers: &Workers,
    gate: &G,
    output: &mut O,
) -> Result<Report, EngineFault>
    requires { All (λ stream. R.has_ended stream ≡ false) streams.items }
    // This is said for all answers on which the run may be to fail.
    ensures { (fail_on : List Condition) → ReadLeaves (OfStreams (map R.left streams.items) fail_on
        (inquiry_view inquiry.entry)) (judgement_ending fail_on result) (O.contents output.old)
        (O.contents output.new) }
{
    let workers = workers.count();
    let report = judge_inquiry(
        world.rt,
        world.alloc,
        inquiry,
        streams,
        workers,
        gate,
        output,
    )?;
    if output.flush().is_err() {
        return Err(EngineFault::Write);
    }
    Ok(report)
}

/// Looks up in a document, with what is asked, the predicates that are named; if all are there, or the document is
/// refused, judges it and the streams, as `judge_read`. It gives the report, or nothing if a predicate isn't there:
/// then nothing is read of the streams, and nothing is written.
///
/// # Errors
/// As `judge_read`.
fn judge_named<Y: System, R: ByteSource + Send + Drop, G: Gate + Sync, O: Write>(
    world: &World<'_, Y>,
    inquiry: Inquiry<'_, '_, '_>,
    streams: Vec<R>,
    judgement: &Judgement<'_>,
    gate: &G,
    output: &mut O,
) -> Result<Option<Report>, EngineFault>
    requires { All (λ stream. R.has_ended stream ≡ false) streams.items }
    ensures { ReadLeaves (OfNamed (fail_on_view judgement.now.fail_on) (OfStreams (map R.left streams.items)
        (fail_on_view judgement.now.fail_on)) (inquiry_view inquiry.entry))
        (named_ending (fail_on_view judgement.now.fail_on) result) (O.contents output.old) (O.contents output.new) }
{
    if !has_named(world.alloc, inquiry, &judgement.fail_on)? {
        return Ok(None);
    }
    let workers = &judgement.workers;
    match judge_read(world, inquiry, streams, workers, gate, output) {
        Ok(report) => Ok(Some(report)),
        Err(fault) => Err(fault),
    }
}

/// Opens the files of a session, the document and then the streams, reads the document, looks up in it the predicates
/// that are named, judges it, with what is asked, and the streams, writes the report, and flushes the
/// output. It gives the report, or nothing if a predicate that is named isn't there: then no stream is read, and
/// nothing is written. All files are opened before one is read. A stream whose read fails later is a fault of that
/// stream.
///
/// # Errors
/// `Read`, if a file can't be opened or the document can't be read, and `Memory` leave nothing written. `Write` leaves
/// a part of the report written, or all of it if only the flush failed.
pub fn judge_files<Y: System, G: Gate + Sync, O: Write>(
    world: &World<'_, Y>,
    judgement: &Judgement<'_>,
    gate: &G,
    output: &mut O,
) -> Result<Option<Report>, EngineFault>
    // If the document and the streams hold a well-formed session, what is written is true: the texts say so.
    ensures { SessionLeaves (Y.Files.file_of world.now.files.now) (options_view judgement.now.names.options)
        judgement.now.names.spec.now (session_view judgement.now.names).1
        (λ sources. OfNamed (fail_on_view judgement.now.fail_on) (OfStreams sources
        (fail_on_view judgement.now.fail_on)))
        (named_ending (fail_on_view judgement.now.fail_on) result) (O.contents output.old) (O.contents output.new) }
{
    match read_session(world, &judgement.names) {
        Ok(read) => {
            let streams = read.streams;
            let inquiry = Inquiry {
                document: &read.document,
                options: &judgement.names.options,
            };
            judge_named(world, inquiry, streams, judgement, gate, output)
        }
        Err(fault) => Err(fault),
    }
}
