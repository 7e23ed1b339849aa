//! Reads a report.
ghost use Rattle.def_format.specs.Lines.{line_feed};
ghost use Rattle.def_format.specs.Reports.{answer_lines, text_of_lines, Agrees, IsNoReport, IsReport};
ghost use Rattle.pd_report.specs.Pairs.{AnswersFit, IsPair};
ghost use Rattle.pd_report.specs.Reading.{counts_text, CountsFit};
ghost use Rattle.pd_report.specs.Views.{answer_view, report_view};
ghost use Rattle.pd_report.specs.declared.read_fault.ReportFault.TheVariants.{Line};
ghost use Rattle.std.specs.Prelude.{◌≡◌, ◌∷◌, ◌++◌, ◌*◌, ◌+◌, ◌<◌, ℕ, Err, flat_map, map, IfOk};

use super::answer::Answer;
use super::answer_line::{first_line, second_line};
use super::read_fault::ReportFault;
use super::refusal_line::refused_line;
use super::report::Report;
use super::session_line::session_line;
use super::words::cut_at;
use def_format::PREDICATE_LIMIT;
use std::alloc::{AllocError, Global};

/// The byte that ends a line.
const LINE_FEED: u8 = b'\n';

/// What a first line and the bytes after it begin with.
#[derive(Drop)]
enum Pair<'a> {
    /// An answer, and the bytes after its second line.
    Reported(Answer, &'a [u8]),
    /// The first line is of no answer.
    First,
    /// The first line is, and the second isn't there or doesn't go with it.
    Second,
}

/// Reads an answer, of its first line and the bytes after that.
fn read_pair<'a>(alloc: Global, first: &[u8], others: &'a [u8]) -> Result<Pair<'a>, AllocError>
    ensures { IfOk result (IsPair first.now others.now) }
{
    let Some((name, possibly)) = first_line(alloc, first)? else {
        return Ok(Pair::First);
    };
    let Some((second, rest)) = cut_at(others, LINE_FEED) else {
        return Ok(Pair::Second);
    };
    let Some(definitely) = second_line(alloc, &name, second)? else {
        return Ok(Pair::Second);
    };
    let answer = Answer {
        name,
        possibly,
        definitely,
    };
    Ok(Pair::Reported(answer, rest))
}

/// Reads the answers after the line of these counts.
fn answers(alloc: Global, counts: (u64, u64, u64), bytes: &[u8]) -> Result<Vec<Answer>, ReportFault>
    requires { CountsFit counts }
    ensures reported { IfOk result (λ answers. AnswersFit answers.items
        × (bytes.now ≡ text_of_lines (flat_map answer_lines (map answer_view answers.items)))) }
    ensures line { (k : ℕ) → result ≡ Err (Line k) → IsNoReport (counts_text counts ++ line_feed ∷ bytes.now) k }
{
    let mut answers = Vec::new(alloc);
    let mut rest = bytes;
    while !rest.is_empty() {
        let line = 2 * answers.len() as u64 + 2;
        let Some((first, others)) = cut_at(rest, LINE_FEED) else {
            return Err(ReportFault::Line(line));
        };
        if answers.len() == PREDICATE_LIMIT {
            return Err(ReportFault::Line(line));
        }
        match read_pair(alloc, first, others)? {
            Pair::Reported(answer, after) => {
                let Ok(()) = answers.push(answer) else {
                    return Err(ReportFault::Memory);
                };
                rest = after;
            }
            Pair::First => return Err(ReportFault::Line(line)),
            Pair::Second => return Err(ReportFault::Line(line + 1)),
        }
    }
    if answers.is_empty() {
        Err(ReportFault::Line(2))
    } else {
        Ok(answers)
    }
}

/// Reads a report: the one whose text the bytes are.
///
/// It goes line by line. Before the first line is known to be a report's, nothing is allocated, so bytes that no
/// report begins with are refused in no more memory than they take themselves.
///
/// # Errors
/// `Line`, if they are no report, with the number of the first line, counted from 1 and with its LF, with which they
/// stop being one. If the text stops too early, it is the number after the last line's. `Memory`, if an
/// allocation is refused; never for bytes whose first line is no report's.
pub fn read(alloc: Global, bytes: &[u8]) -> Result<Report, ReportFault>
    ensures reported { IfOk result (λ report. IsReport bytes.now (report_view report)) }
    ensures line { (k : ℕ) → result ≡ Err (Line k) → IsNoReport bytes.now k }
    // If no report begins with the first line, the bytes are refused there, and never as out of memory.
    ensures early { ¬ (Agrees bytes.now 1) → result ≡ Err (Line 1) }
{
    let Some((first, rest)) = cut_at(bytes, LINE_FEED) else {
        return Err(ReportFault::Line(1));
    };
    if let Some(counts) = session_line(first) {
        let (processes, events, messages) = counts;
        let answers = answers(alloc, counts, rest)?;
        return Ok(Report::Judged {
            processes,
            events,
            messages,
            answers,
        });
    }
    let Some(refusal) = refused_line(alloc, first)? else {
        return Err(ReportFault::Line(1));
    };
    if rest.is_empty() {
        Ok(Report::Refused(refusal))
    } else {
        Err(ReportFault::Line(2))
    }
}
