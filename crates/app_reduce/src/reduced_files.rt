//! Reduces the recorded run in files.
ghost use Rattle.app_arguments.specs.Views.{session_view};
ghost use Rattle.app_reduce.specs.Files.{ComesOfFiles, RunLeaves, reduce_ending};
ghost use Rattle.pd_spec.specs.Views.{options_view};

use super::folder::{Reserved, release_folder, reserve_folder, save_session};
use super::outcome::Outcome;
use super::reductions::reduced_run;
use super::texts::outcome_text;
use super::unwritten::Unwritten;
use app_arguments::Reduction;
use app_host::{FileSource, System, World, read_session, write_flushed};
use judge_session::{EngineFault, Inquiry};
use std::alloc::AllocError;
use std::io::Write;

/// Writes the session that comes of a run into the folder that was made for it, if there is one. It gives whether it is
/// written; if not, it is noted why.
///
/// # Errors
/// Out of memory.
fn save_outcome<Y: System>(
    world: &World<'_, Y>,
    reduction: &Reduction<'_>,
    reserved: &Reserved<'_>,
    outcome: &Outcome,
    unwritten: &mut Unwritten,
) -> Result<bool, AllocError>
    requires { ComesOfFiles (Y.Files.file_of world.now.files.now) (options_view reduction.now.names.options)
        reduction.now.names.spec.now (session_view reduction.now.names).1 outcome.now }
{
    match outcome {
        Outcome::Made(made) => save_session(world, reduction, reserved, made, unwritten),
        Outcome::Refused(_) | Outcome::Unmade(_) => Ok(true),
    }
}

/// Writes what comes of a run: the session into the folder that was made for it, if there is one, and then the text to
/// the output, which it flushes.
///
/// # Errors
/// `Memory` leaves nothing on the output. `Write` leaves nothing on it if the folder can't be written, which is noted,
/// and else a part of the text, or all of it if only the flush failed.
fn write_outcome<Y: System, O: Write>(
    world: &World<'_, Y>,
    reduction: &Reduction<'_>,
    reserved: &Reserved<'_>,
    outcome: Outcome,
    unwritten: &mut Unwritten,
    output: &mut O,
) -> Result<Outcome, EngineFault>
    requires { ComesOfFiles (Y.Files.file_of world.now.files.now) (options_view reduction.now.names.options)
        reduction.now.names.spec.now (session_view reduction.now.names).1 outcome }
    ensures { RunLeaves (Y.Files.file_of world.now.files.now) (options_view reduction.now.names.options)
        reduction.now.names.spec.now (session_view reduction.now.names).1 (reduce_ending result)
        (O.contents output.old) (O.contents output.new) }
{
    let text = outcome_text(world.alloc, &outcome)?;
    if !save_outcome(world, reduction, reserved, &outcome, unwritten)? {
        return Err(EngineFault::Write);
    }
    match write_flushed(&text, output) {
        Ok(()) => Ok(outcome),
        Err(fault) => Err(fault),
    }
}

/// Removes what was made for a session, unless the run ended with it.
fn release_unless_made<F: FileSource>(
    files: &F,
    reserved: &Reserved<'_>,
    end: &Result<Outcome, EngineFault>,
) {
    match end {
        Ok(Outcome::Made(_)) => (),
        _ => release_folder(files, reserved),
    }
}

/// Opens the files of a recorded run, the document and then the streams, reads the document, makes the folder that is
/// asked for, and then reads each stream, whole, one after another; writes a session that has the run's answers into
/// the folder, and to the output what the run and the session have, and flushes it. If the run is refused, its report
/// is written to the output, and if no session can be made of it, a line that says so. It gives what comes of the run.
/// Nothing is left of a folder that was made and gets no session.
///
/// # Errors
/// `Read`, if a file can't be opened or read, and `Memory` leave nothing on the output. `Write` leaves nothing on it if
/// the folder can't be made or written, which is noted, and else a part of the text, or all of it if only the flush
/// failed.
pub fn reduce_files<Y: System, O: Write>(
    world: &World<'_, Y>,
    reduction: &Reduction<'_>,
    unwritten: &mut Unwritten,
    output: &mut O,
) -> Result<Outcome, EngineFault>
    ensures { RunLeaves (Y.Files.file_of world.now.files.now) (options_view reduction.now.names.options)
        reduction.now.names.spec.now (session_view reduction.now.names).1 (reduce_ending result)
        (O.contents output.old) (O.contents output.new) }
{
    match read_session(world, &reduction.names) {
        Ok(read) => {
            let Some(reserved) = reserve_folder(world, reduction, unwritten)? else {
                return Err(EngineFault::Write);
            };
            let streams = read.streams;
            let inquiry = Inquiry {
                document: &read.document,
                options: &reduction.names.options,
            };
            match reduced_run(world.rt, world.alloc, inquiry, streams) {
                Ok(outcome) => {
                    let end = write_outcome(
                        world, reduction, &reserved, outcome, unwritten, output,
                    );
                    release_unless_made(world.files, &reserved, &end);
                    end
                }
                Err(fault) => {
                    release_folder(world.files, &reserved);
                    Err(fault)
                }
            }
        }
        Err(fault) => Err(fault),
    }
}
