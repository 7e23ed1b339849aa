//! The exit status by how a reduction ended, what is reported, and an explanation.
ghost use Rattle.app_arguments.specs.Statuses.{Reports, status_of};
ghost use Rattle.app_reduce.specs.Files.{reduce_ending};
ghost use Rattle.std.specs.Prelude.{◌≡◌};

use super::outcome::Outcome;
use super::short_texts::shortened;
use super::unwritten::Unwritten;
use app_arguments::Reduction;
use app_ends::{put_fault, run_refusal_text};
use app_host::{REFUSED, SUCCESS, System, World, report_fault};
use app_text::{Text, rows_of};
use def_recordings::RECORDED_PROCESS_LIMIT;
use judge_session::EngineFault;
use pd_report::{Refusal, Report};
use std::io::Write;

/// The exit status by how a reduction ended, whose fault is reported.
pub fn report_reduction<E: Write>(end: &Result<Outcome, EngineFault>, errors: &mut E) -> u8
    ensures status { result ≡ status_of (reduce_ending end.now) }
    ensures errors { Reports (reduce_ending end.now) (E.contents errors.old) (E.contents errors.new) }
{
    match end {
        Ok(outcome) => match outcome {
            Outcome::Made(_) => SUCCESS,
            Outcome::Refused(_) => REFUSED,
            Outcome::Unmade(_) => REFUSED,
        },
        Err(fault) => report_fault(fault, errors),
    }
}

/// Says where the session stands.
fn put_made(out: &mut Text, folder: &str) {
    out.say("The session stands in the folder ");
    out.say_name(folder);
    out.say(
        ". It is judged by `monitor judge --beyond-width FOLDER/session.json FOLDER/*.stream`.\n",
    );
}

/// Explains that no session can be made of a run.
fn put_unmade(out: &mut Text) {
    out.say(
        "The session would have more than a session may have: more than 16 processes that predicates name, more than \
10,000 events of one, its receipts among them, or a document of more than 262,144 bytes.\n",
    );
    out.say_advice(
        "few enough processes that predicates name, and events that set a variable which they name to another value.",
        "ask fewer predicates at once, by --ask: each session keeps what these name. If a process has too many events, \
cut the run: recorders/python/monitor_reduce.py --windows N makes a session of each part.",
    );
}

/// Explains that the document of a run is too long, of which no process may be left out.
fn put_long(out: &mut Text) {
    out.say("The run's document has more than 262,144 bytes.\n");
    out.say_advice(
        "at most 262,144 bytes.",
        "leave out variables and predicates that no question needs, and choose shorter names. If a process is left \
out, order is lost that came through it.",
    );
}

/// The explanation of a refusal of a run.
fn refusal_rows<Y: System>(
    world: &World<'_, Y>,
    reduction: &Reduction<'_>,
    refusal: &Refusal,
) -> Vec<u8> {
    match refusal {
        Refusal::Spec(word) if word.as_str() == "long" => {
            let mut out = Text::new(world.alloc);
            put_long(&mut out);
            rows_of(world.alloc, out)
        }
        _ => run_refusal_text(world, &reduction.names, RECORDED_PROCESS_LIMIT, refusal),
    }
}

/// Explains that the folder of a session couldn't be written.
fn put_unwritten(out: &mut Text, unwritten: &Unwritten) {
    out.say("The session isn't written. ");
    if let Some(why) = unwritten.failure() {
        out.say_shown(why.as_bytes());
        out.say(".\n");
    }
    out.say_advice(
        "a name that nothing has yet, or that of an empty folder, in a folder in which files can be written; nothing \
under that name and `.new`; and room for the session.",
        "give another folder after --to, or make room.",
    );
}

/// Explains how a reduction ended that wasn't refused.
fn put_reduction<Y: System>(
    out: &mut Text,
    world: &World<'_, Y>,
    reduction: &Reduction<'_>,
    unwritten: &Unwritten,
    end: &Result<Outcome, EngineFault>,
) {
    let names = &reduction.names;
    match end {
        Ok(Outcome::Made(_)) => put_made(out, reduction.folder),
        Ok(Outcome::Unmade(_)) => put_unmade(out),
        Ok(Outcome::Refused(_)) => (),
        Err(EngineFault::Write) if unwritten.has_failed() => put_unwritten(out, unwritten),
        Err(fault) => put_fault(out, world, None, names.spec, &names.streams, fault),
    }
}

/// The explanation of how a reduction ended, as far as it could be made; empty if none is wanted. One of over 100 lines
/// has the first and the last of them.
pub fn reduction_text<Y: System>(
    world: &World<'_, Y>,
    reduction: &Reduction<'_>,
    unwritten: &Unwritten,
    end: &Result<Outcome, EngineFault>,
) -> Vec<u8> {
    let mut out = Text::new(world.alloc);
    if world.explain {
        if let Ok(Outcome::Refused(Report::Refused(refusal))) = end {
            return shortened(world.alloc, refusal_rows(world, reduction, refusal));
        }
        put_reduction(&mut out, world, reduction, unwritten, end);
    }
    shortened(world.alloc, rows_of(world.alloc, out))
}
