//! The exit status by how a run ended that infers a document, what is reported, and an explanation.
ghost use Rattle.app_arguments.specs.Statuses.{WritesUpTo};
ghost use Rattle.app_infer.specs.Inferences.{infer_report};
ghost use Rattle.std.specs.Prelude.{◌≡◌};

use super::advice::{expected, session_advice, stream_advice};
use super::outcome::{InferOutcome, Reason};
use app_ends::put_fault;
use app_host::{REFUSED, SUCCESS, System, World, report_fault, write_line};
use app_text::{Source, Text, line_at, rows_of};
use judge_session::EngineFault;
use std::io::Write;

/// The exit status by how a run ended that infers a document, which is reported if none is written.
pub fn report_infer<E: Write>(end: &Result<InferOutcome, EngineFault>, errors: &mut E) -> u8
    ensures status { result ≡ (infer_report end.now).0 }
    ensures errors { WritesUpTo (λ text. text ≡ (infer_report end.now).1) (E.contents errors.old)
        (E.contents errors.new) }
{
    match end {
        Ok(outcome) => match outcome {
            InferOutcome::Written => {
                write_line(b"", errors);
                SUCCESS
            }
            InferOutcome::Refused(_, notice) => {
                write_line(notice, errors);
                REFUSED
            }
        },
        Err(fault) => report_fault(fault, errors),
    }
}

/// Shows the line of this number of the stream at this place, if what was read of the stream is noted.
fn show_fault<Y: System>(
    out: &mut Text,
    world: &World<'_, Y>,
    name: &str,
    place: usize,
    number: u64,
) {
    let Some(note) = world.notes.stream(place) else {
        return;
    };
    let Some(bytes) = note.bytes() else {
        return;
    };
    let source = Source {
        name,
        bytes,
        before: 0,
    };
    out.show_numbered(&source, number, line_at(bytes, number), None);
}

/// Explains why streams have no document: which line is at fault, and what to do.
fn put_reason<Y: System>(out: &mut Text, world: &World<'_, Y>, names: &[&str], reason: Reason) {
    match reason {
        Reason::Stream(place, fault) => {
            if let (Some(name), Some(number)) = (names.get(place), fault.line) {
                show_fault(out, world, name, place, number);
            }
            out.say_advice(expected(fault.wrong), stream_advice(fault.wrong));
        }
        Reason::Session(fault) => out.say_advice("", session_advice(fault)),
    }
}

/// Explains how a run ended that infers a document.
fn put_infer<Y: System>(
    out: &mut Text,
    world: &World<'_, Y>,
    names: &[&str],
    end: &Result<InferOutcome, EngineFault>,
) {
    match end {
        Ok(outcome) => match outcome {
            InferOutcome::Written => (),
            InferOutcome::Refused(reason, _) => put_reason(out, world, names, *reason),
        },
        Err(fault) => put_fault(out, world, None, "", names, fault),
    }
}

/// The explanation of how a run ended that infers a document of streams in the files of these names, as far as it could
/// be made; empty if none is wanted.
pub fn infer_text<Y: System>(
    world: &World<'_, Y>,
    names: &[&str],
    end: &Result<InferOutcome, EngineFault>,
) -> Vec<u8> {
    let mut out = Text::new(world.alloc);
    if world.explain {
        put_infer(&mut out, world, names, end);
    }
    rows_of(world.alloc, out)
}
