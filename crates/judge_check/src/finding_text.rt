//! The text of what a check finds.
ghost use Rattle.judge_check.specs.Pieces.{answer_line, test_line, unread_line, verdicts_text};
ghost use Rattle.judge_check.specs.Views.{checked_view, finding_view, verdict_view};
ghost use Rattle.def_format.specs.OtherTexts.{check_text, checked_lines, verdict_word};
ghost use Rattle.def_format.specs.Lines.{line_feed};
ghost use Rattle.def_format.specs.Reports.{text_of_lines};
ghost use Rattle.std.specs.Prelude.{◌≡◌, ◌∷◌, ◌++◌, [], IfOk, OnOk};

use super::checked::Checked;
use super::finding::Finding;
use super::verdict::Verdict;
use pd_report::{push_bytes, push_number};
use std::alloc::{AllocError, Global};

/// The word for a verdict.
fn word(verdict: Verdict) -> &'static [u8]
    ensures { result.now ≡ verdict_word (verdict_view verdict) }
{
    match verdict {
        Verdict::Good => b"good",
        Verdict::Bad => b"bad",
        Verdict::Unchecked => b"unchecked",
    }
}

/// Appends a verdict's word, and an LF.
fn push_verdict(out: &mut Vec<u8>, verdict: Verdict) -> Result<(), AllocError>
    ensures { OnOk result (out.new.items ≡ out.old.items ++ (verdict_word (verdict_view verdict) ++ line_feed ∷ [])) }
{
    push_bytes(out, word(verdict))?;
    push_bytes(out, b"\n")
}

/// Appends the line of a verdict on an answer.
fn push_answer(
    out: &mut Vec<u8>,
    name: &str,
    modality: &[u8],
    verdict: Verdict,
) -> Result<(), AllocError>
    ensures { OnOk result (out.new.items ≡ out.old.items ++ answer_line name.now modality.now (verdict_view verdict)) }
{
    push_bytes(out, name.as_bytes())?;
    push_bytes(out, modality)?;
    push_verdict(out, verdict)
}

/// Appends the two lines of one predicate.
fn push_checked(out: &mut Vec<u8>, checked: &Checked) -> Result<(), AllocError>
    ensures { OnOk result (out.new.items ≡ out.old.items ++ text_of_lines (checked_lines (checked_view checked.now))) }
{
    push_answer(out, &checked.name, b" possibly ", checked.possibly)?;
    push_answer(out, &checked.name, b" definitely ", checked.definitely)
}

/// Appends the lines of answers.
fn push_answers(out: &mut Vec<u8>, answers: &[Checked]) -> Result<(), AllocError>
    ensures { OnOk result (out.new.items ≡ out.old.items ++ verdicts_text answers.now) }
{
    for checked in answers {
        push_checked(out, checked)?;
    }
    Ok(())
}

/// Appends the line of what is good or not.
fn push_test(out: &mut Vec<u8>, subject: &[u8], good: bool) -> Result<(), AllocError>
    ensures { OnOk result (out.new.items ≡ out.old.items ++ test_line subject.now good) }
{
    push_bytes(out, subject)?;
    push_verdict(out, Verdict::by_test(good))
}

/// Appends the line of a report that isn't read.
fn push_unread(out: &mut Vec<u8>, line: u64) -> Result<(), AllocError>
    ensures { OnOk result (out.new.items ≡ out.old.items ++ unread_line line) }
{
    push_bytes(out, b"report line ")?;
    push_number(out, line)?;
    push_bytes(out, b"\n")
}

/// Appends the lines of what a check finds.
fn push_finding(out: &mut Vec<u8>, finding: &Finding) -> Result<(), AllocError>
    ensures { OnOk result (out.new.items ≡ out.old.items ++ check_text (finding_view finding.now)) }
{
    match finding {
        Finding::NotRead(line) => push_unread(out, *line),
        Finding::OfRefusal(good) => push_test(out, b"refused ", *good),
        Finding::OfSession(good, answers) => {
            push_test(out, b"session ", *good)?;
            match answers {
                Some(answers) => push_answers(out, answers),
                None => push_bytes(out, b"names bad\n"),
            }
        }
    }
}

/// The text of what a check finds: the line where the report isn't read, or the refusal's or the session's verdict and
/// two lines for each predicate, each ended by an LF.
pub fn text(alloc: Global, finding: &Finding) -> Result<Vec<u8>, AllocError>
    ensures { IfOk result (λ text. text.items ≡ check_text (finding_view finding.now)) }
{
    let mut out = Vec::new(alloc);
    push_finding(&mut out, finding)?;
    Ok(out)
}
