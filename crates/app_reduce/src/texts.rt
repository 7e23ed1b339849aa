//! The text of what comes of a recorded run.
ghost use Rattle.app_reduce.specs.Outcomes.{line_of, outcome_text};
ghost use Rattle.app_reduce.specs.ReducedTexts.{counts_line};
ghost use Rattle.std.specs.Prelude.{◌≡◌, ◌++◌, IfOk, codes, length};

use super::counts::{Counts, push_counts};
use super::outcome::{MadeSession, Outcome};
use pd_report::{push_bytes, text};
use std::alloc::{AllocError, Global};

/// The text of a run of which no session can be made.
fn unmade_text(alloc: Global, run: Counts) -> Result<Vec<u8>, AllocError>
    ensures { IfOk result (λ text. text.items ≡ line_of (codes "run") run ++ codes "no session\n") }
{
    let mut out = Vec::new(alloc);
    push_counts(&mut out, "run", run)?;
    push_bytes(&mut out, b"no session\n")?;
    Ok(out)
}

/// The text of a run, and of a session that has its answers.
fn made_text(alloc: Global, made: &MadeSession) -> Result<Vec<u8>, AllocError>
    ensures { IfOk result (λ text. text.items ≡ line_of (codes "run") made.now.run
        ++ counts_line (codes "session") (length made.now.session.places.items) made.now.session.events
        made.now.session.messages) }
{
    let session = Counts {
        processes: made.session.places.len() as u64,
        events: made.session.events,
        messages: made.session.messages,
    };
    let mut out = Vec::new(alloc);
    push_counts(&mut out, "run", made.run)?;
    push_counts(&mut out, "session", session)?;
    Ok(out)
}

/// The text of what comes of a run: the line of the run, and that of a session or one that says that there is none; or
/// the report by which the run is refused.
///
/// # Errors
/// Out of memory.
pub fn outcome_text(alloc: Global, outcome: &Outcome) -> Result<Vec<u8>, AllocError>
    ensures { IfOk result (λ text. text.items ≡ outcome_text outcome.now) }
{
    match outcome {
        Outcome::Refused(report) => text(alloc, report),
        Outcome::Unmade(run) => unmade_text(alloc, *run),
        Outcome::Made(made) => made_text(alloc, made),
    }
}
