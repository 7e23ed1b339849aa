//! The test case of a run, as XML.
ghost use Rattle.judge_results.specs.Results.{case_begin, case_end, case_text, error_type, found_text};
ghost use Rattle.judge_runs.specs.Views.{outcome_view, verdict_view, wishes_view};
ghost use Rattle.std.specs.Ffi.{without_last};
ghost use Rattle.std.specs.Prelude.{◌≡◌, ◌++◌, ℕ, List, OnOk, codes};

use judge_runs::{Outcome, Verdict, Wish, line_of};
use out_svg::push_escaped;
use pd_report::push_bytes;
use std::alloc::{AllocError, Global};

/// What stands in the line of a run after the folder's name, a colon and a blank, without its last byte, the LF.
fn words_in<'l>(line: &'l [u8], folder: &str) -> &'l [u8]
    requires { (words : List ℕ) × (line.now ≡ folder.now ++ codes ": " ++ words) }
    ensures { (words : List ℕ) → line.now ≡ folder.now ++ codes ": " ++ words → result.now ≡ without_last words }
{
    let (_, rest) = line.split_at(folder.len() + 2);
    match rest.split_last() {
        Some((_, words)) => words,
        None => rest,
    }
}

/// The type of the error of a run that isn't judged.
fn error_type(outcome: &Outcome) -> &'static str
    ensures { result.now ≡ error_type (outcome_view outcome.now) }
{
    match outcome {
        Outcome::Unread(_) => "unread",
        Outcome::Unnamed(_) => "unnamed",
        Outcome::Reported(_) => "refused",
    }
}

/// Appends the element of this name in a test case, of this type and with these words, and ends the case.
fn push_found(out: &mut Vec<u8>, element: &str, kind: &str, words: &[u8]) -> Result<(), AllocError>
    ensures { OnOk result (out.new.items ≡ out.old.items ++ found_text element.now kind.now words.now) }
{
    push_bytes(out, b"><")?;
    push_bytes(out, element.as_bytes())?;
    push_bytes(out, b" type=\"")?;
    push_bytes(out, kind.as_bytes())?;
    push_bytes(out, b"\" message=\"")?;
    push_escaped(out, words)?;
    push_bytes(out, b"\"/></testcase>\n")?;
    Ok(())
}

/// Appends what stands in a test case after the name.
fn push_end(
    out: &mut Vec<u8>,
    verdict: Verdict,
    outcome: &Outcome,
    words: &[u8],
) -> Result<(), AllocError>
    ensures { OnOk result (out.new.items
        ≡ out.old.items ++ case_end (verdict_view verdict) (outcome_view outcome.now) words.now) }
{
    match verdict {
        Verdict::Pass => push_bytes(out, b"/>\n"),
        Verdict::Fail => push_found(out, "failure", "fail", words),
        Verdict::NotJudged => push_found(out, "error", error_type(outcome), words),
    }
}

/// Appends the beginning of the test case of this name.
fn push_begin(out: &mut Vec<u8>, name: &str) -> Result<(), AllocError>
    ensures { OnOk result (out.new.items ≡ out.old.items ++ case_begin name.now) }
{
    push_bytes(out, b"<testcase classname=\"monitor\" name=\"")?;
    push_escaped(out, name.as_bytes())?;
    push_bytes(out, b"\"")?;
    Ok(())
}

/// Appends the test case of the run in this folder, of which this comes.
///
/// # Errors
/// Out of memory.
pub(crate) fn push_case(
    out: &mut Vec<u8>,
    alloc: Global,
    wishes: &[Wish<'_>],
    folder: &str,
    outcome: &Outcome,
) -> Result<(), AllocError>
    ensures { OnOk result (out.new.items ≡ out.old.items ++ case_text (wishes_view wishes.now)
        (record { folder = folder.now; outcome = outcome_view outcome.now })) }
{
    let (line, verdict) = line_of(alloc, wishes, folder, outcome)?;
    push_begin(out, folder)?;
    push_end(out, verdict, outcome, words_in(&line, folder))?;
    Ok(())
}
