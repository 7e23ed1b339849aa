//! The exit status by how a run ended that merges lines, what is reported, and an explanation.
ghost use Rattle.app_arguments.specs.Statuses.{WritesUpTo};
ghost use Rattle.app_merge.specs.Merges.{conclusion_status, merge_report};
ghost use Rattle.std.specs.Prelude.{◌≡◌};

use super::outcome::{LineWrong, MergeOutcome};
use app_ends::put_fault;
use app_host::{ALARMED, REFUSED, SUCCESS, System, World, report_fault, write_line};
use app_text::{Text, rows_of};
use judge_session::EngineFault;
use judge_summary::Conclusion;
use std::io::Write;

/// The exit status by what comes of the runs that a summary counts.
fn conclusion_status(end: Conclusion) -> u8
    ensures { result ≡ conclusion_status end }
{
    match end {
        Conclusion::AllPass => SUCCESS,
        Conclusion::SomeFails => ALARMED,
        Conclusion::SomeNotJudged => REFUSED,
    }
}

/// The exit status by how a run ended that merges lines, which is reported if no summary is written.
pub fn report_merge<E: Write>(end: &Result<MergeOutcome, EngineFault>, errors: &mut E) -> u8
    ensures status { result ≡ (merge_report end.now).0 }
    ensures errors { WritesUpTo (λ text. text ≡ (merge_report end.now).1) (E.contents errors.old)
        (E.contents errors.new) }
{
    match end {
        Ok(outcome) => match outcome {
            MergeOutcome::Written(conclusion) => {
                write_line(b"", errors);
                conclusion_status(*conclusion)
            }
            MergeOutcome::Refused(_, _, notice) => {
                write_line(notice, errors);
                REFUSED
            }
        },
        Err(fault) => report_fault(fault, errors),
    }
}

/// What was expected in place of a line that is at fault, and what to do.
fn put_wrong(out: &mut Text, wrong: LineWrong) {
    match wrong {
        LineWrong::Shape => out.say_advice(
            "an answer or an error as `monitor batch` writes it, or a summary as `monitor merge` does: one JSON object \
on each line.",
            "give such lines alone, as in `monitor batch < SESSIONS | monitor merge`.",
        ),
        LineWrong::Overflow => out.say_advice(
            "sums of at most 18446744073709551615.",
            "merge fewer summaries at a time, and keep their lines as they are.",
        ),
    }
}

/// Explains how a run ended that merges lines.
fn put_merge<Y: System>(
    out: &mut Text,
    world: &World<'_, Y>,
    end: &Result<MergeOutcome, EngineFault>,
) {
    match end {
        Ok(MergeOutcome::Written(_)) => (),
        Ok(MergeOutcome::Refused(_, wrong, _)) => put_wrong(out, *wrong),
        Err(EngineFault::Read) => out.say(
            "Standard input can't be read: give lines of `monitor batch`, or summaries, as in \
`monitor merge < FILE`.\n",
        ),
        Err(fault) => put_fault(out, world, None, "", &[], fault),
    }
}

/// The explanation of how a run ended that merges lines, as far as it could be made; empty if none is wanted.
pub fn merge_text<Y: System>(
    world: &World<'_, Y>,
    end: &Result<MergeOutcome, EngineFault>,
) -> Vec<u8> {
    let mut out = Text::new(world.alloc);
    if world.explain {
        put_merge(&mut out, world, end);
    }
    rows_of(world.alloc, out)
}
