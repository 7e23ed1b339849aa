//! The line that says what came of a run.
ghost use Rattle.judge_runs.specs.Runs.{judged_words};
ghost use Rattle.judge_runs.specs.Runs as runs;
ghost use Rattle.judge_runs.specs.Tallies.{listed};
ghost use Rattle.judge_runs.specs.Views.{outcome_view, verdict_view, wishes_view};
ghost use Rattle.pd_report.specs.Views.{report_view};
ghost use Rattle.def_format.specs.Reports.{report_text};
ghost use Rattle.std.specs.Prelude.{◌≡◌, ◌++◌, IfOk, OnOk, codes, map};

use super::outcome::Outcome;
use super::verdict::Verdict;
use super::wish::{Wish, broken};
use pd_report::{Answer, Report, push_bytes, text};
use std::alloc::{AllocError, Global};

/// Appends texts with a comma and a space between each two.
fn push_listed(out: &mut Vec<u8>, texts: &[Vec<u8>]) -> Result<(), AllocError>
    ensures { OnOk result (out.new.items ≡ out.old.items ++ listed (map (λ text. text.items) texts.now)) }
{
    let Some((first, more)) = texts.split_first() else {
        return Ok(());
    };
    push_bytes(out, first)?;
    for text in more {
        push_bytes(out, b", ")?;
        push_bytes(out, text)?;
    }
    Ok(())
}

/// Appends what came of a run that is judged, by what is said of the answers that aren't as wished.
fn push_judged(out: &mut Vec<u8>, broken: &[Vec<u8>]) -> Result<Verdict, AllocError>
    ensures words { OnOk result (out.new.items ≡ out.old.items ++ judged_words (map (λ text. text.items) broken.now)) }
    ensures verdict { IfOk result (λ verdict. verdict_view verdict
        ≡ runs.verdict_by (map (λ text. text.items) broken.now)) }
{
    if broken.is_empty() {
        push_bytes(out, b"pass\n")?;
        return Ok(Verdict::Pass);
    }
    push_bytes(out, b"fail: ")?;
    push_listed(out, broken)?;
    push_bytes(out, b"\n")?;
    Ok(Verdict::Fail)
}

/// Appends these bytes after a word, and an LF.
fn push_named(out: &mut Vec<u8>, word: &str, name: &str) -> Result<(), AllocError>
    ensures { OnOk result (out.new.items ≡ out.old.items ++ word.now ++ name.now ++ codes "\n") }
{
    push_bytes(out, word.as_bytes())?;
    push_bytes(out, name.as_bytes())?;
    push_bytes(out, b"\n")
}

/// Appends what came of a run by its report.
fn push_report(
    out: &mut Vec<u8>,
    alloc: Global,
    wishes: &[Wish<'_>],
    report: &Report,
) -> Result<Verdict, AllocError>
    ensures words { OnOk result (out.new.items ≡ out.old.items
        ++ runs.outcome_words (wishes_view wishes.now) (runs.Reported (report_view report.now))) }
    ensures verdict { IfOk result (λ verdict. verdict_view verdict
        ≡ runs.verdict_of (wishes_view wishes.now) (runs.Reported (report_view report.now))) }
{
    match report {
        Report::Judged { answers, .. } => {
            let broken = broken(alloc, wishes, answers)?;
            push_judged(out, &broken)
        }
        Report::Refused(_) => {
            push_bytes(out, &text(alloc, report)?)?;
            Ok(Verdict::NotJudged)
        }
    }
}

/// Appends what came of a run.
fn push_outcome(
    out: &mut Vec<u8>,
    alloc: Global,
    wishes: &[Wish<'_>],
    outcome: &Outcome,
) -> Result<Verdict, AllocError>
    ensures words { OnOk result (out.new.items ≡ out.old.items
        ++ runs.outcome_words (wishes_view wishes.now) (outcome_view outcome.now)) }
    ensures verdict { IfOk result (λ verdict. verdict_view verdict
        ≡ runs.verdict_of (wishes_view wishes.now) (outcome_view outcome.now)) }
{
    match outcome {
        Outcome::Unread(file) => {
            push_named(out, "unread ", file)?;
            Ok(Verdict::NotJudged)
        }
        Outcome::Unnamed(name) => {
            push_named(out, "unnamed ", name)?;
            Ok(Verdict::NotJudged)
        }
        Outcome::Reported(report) => push_report(out, alloc, wishes, report),
    }
}

/// The line of the run in this folder, with its LF, and whether the run passes.
///
/// # Errors
/// Out of memory.
pub fn line_of(
    alloc: Global,
    wishes: &[Wish<'_>],
    folder: &str,
    outcome: &Outcome,
) -> Result<(Vec<u8>, Verdict), AllocError>
    ensures line { IfOk result (λ found. found.0.items ≡ runs.line_of (wishes_view wishes.now)
        (record { folder = folder.now; outcome = outcome_view outcome.now })) }
    ensures verdict { IfOk result (λ found. verdict_view found.1
        ≡ runs.verdict_of (wishes_view wishes.now) (outcome_view outcome.now)) }
{
    let mut line = Vec::new(alloc);
    push_bytes(&mut line, folder.as_bytes())?;
    push_bytes(&mut line, b": ")?;
    let verdict = push_outcome(&mut line, alloc, wishes, outcome)?;
    Ok((line, verdict))
}
