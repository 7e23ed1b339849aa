//! A report's text.
ghost use Rattle.def_format.specs.Reports.{report_text};
ghost use Rattle.pd_report.specs.Views.{report_view, session_text};
ghost use Rattle.std.specs.Prelude.{◌≡◌, ◌++◌, OnOk, IfOk};

use super::answer_text::push_answers;
use super::fields::{push_bytes, push_number};
use super::refusal_text::push_refusal;
use super::report::Report;
use std::alloc::{AllocError, Global};

/// Appends the line that counts what a session has.
fn push_session(
    out: &mut Vec<u8>,
    processes: u64,
    events: u64,
    messages: u64,
) -> Result<(), AllocError>
    ensures { OnOk result (out.new.items ≡ out.old.items ++ session_text processes events messages) }
{
    push_bytes(out, b"session ")?;
    push_number(out, processes)?;
    push_bytes(out, b" processes ")?;
    push_number(out, events)?;
    push_bytes(out, b" events ")?;
    push_number(out, messages)?;
    push_bytes(out, b" messages\n")
}

/// A report's text: a line for the session and two for each answer, or one for the refusal, each ended by an LF.
///
/// # Errors
/// Out of memory.
pub fn text(alloc: Global, report: &Report) -> Result<Vec<u8>, AllocError>
    ensures { IfOk result (λ text. text.items ≡ report_text (report_view report.now)) }
{
    let mut out = Vec::new(alloc);
    match report {
        Report::Judged {
            processes,
            events,
            messages,
            answers,
        } => {
            push_session(&mut out, *processes, *events, *messages)?;
            push_answers(&mut out, answers)?;
        }
        Report::Refused(refusal) => {
            push_bytes(&mut out, b"refused ")?;
            push_refusal(&mut out, refusal)?;
            push_bytes(&mut out, b"\n")?;
        }
    }
    Ok(out)
}
