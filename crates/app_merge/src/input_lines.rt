//! The summary of the lines of an input.
ghost use Rattle.app_merge.specs.Merges.{IsFaultyAt, IsSummaryOf, IsUnread, after_given};
ghost use Rattle.app_merge.specs.Steps.{IsFound, IsSoFar, StepGives};
ghost use Rattle.app_merge.specs.Views.{wrong_view};
ghost use Rattle.def_judgement.specs.Writes.{Source};
ghost use Rattle.judge_summary.specs.Views.{IsDue};
ghost use Rattle.read_lines.specs.GivenLines.{IsLine};
ghost use Rattle.std.specs.Prelude.{◌≡◌, ◌⊎◌, Err, IfErr, IfOk, List, ℕ, MatchResult, false};

use super::outcome::{LineWrong, wrong_of};
use judge_session::EngineFault;
use judge_summary::{LineFault, Summary};
use pd_gather::ByteSource;
use read_lines::{Line, Lines};
use std::alloc::Global;

/// Adds a line to the summary. One that is too long is no answer and no summary.
fn add_line(alloc: Global, summary: &mut Summary, line: &Line) -> Result<(), LineFault>
    ensures { (bytes : List ℕ) → IsLine line.now bytes → IsDue (after_given summary.old bytes) summary.new result }
{
    match line {
        Line::Whole(bytes) => summary.add_line(alloc, bytes),
        Line::Long => Err(LineFault::Shape),
    }
}

/// What a step comes to.
pub(crate) enum Step {
    /// A line was added.
    Added,
    /// There was no line more.
    End,
    /// The line is at fault.
    Faulty(LineWrong),
}

/// Reads the next line, and adds it.
///
/// # Errors
/// `Read`, if a read fails, and `Memory`.
fn add_next<I: ByteSource + Drop>(
    alloc: Global,
    lines: &mut Lines<I>,
    summary: &mut Summary,
) -> Result<Step, EngineFault>
    ensures gives { IfOk result (λ step. (input : Source) (number : ℕ) → IsSoFar input lines.old summary.old number
        → StepGives step input lines.new summary.new number) }
    ensures cause { result ≡ Err EngineFault.Read → (input : Source) (number : ℕ)
        → IsSoFar input lines.old summary.old number → IsUnread input }
    ensures err { IfErr result (λ fault. (fault ≡ EngineFault.Memory) ⊎ (fault ≡ EngineFault.Read)) }
{
    let found = lines.next(alloc)?;
    let Some(line) = found else {
        return Ok(Step::End);
    };
    match add_line(alloc, summary, &line) {
        Ok(()) => Ok(Step::Added),
        Err(fault) => match wrong_of(fault) {
            Some(wrong) => Ok(Step::Faulty(wrong)),
            None => Err(EngineFault::Memory),
        },
    }
}

/// The summary of all lines of the input; or the number of the first line that is at fault, counted from 1, with what
/// is wrong with it.
///
/// # Errors
/// `Read`, if a read fails, and `Memory`.
pub(crate) fn summary_of<I: ByteSource + Drop>(
    alloc: Global,
    input: I,
) -> Result<Result<Summary, (u64, LineWrong)>, EngineFault>
    requires open { I.has_ended input ≡ false }
    ensures found { IfOk result (IsFound (I.left input)) }
    ensures cause { result ≡ Err EngineFault.Read → IsUnread (I.left input) }
    ensures err { IfErr result (λ fault. (fault ≡ EngineFault.Memory) ⊎ (fault ≡ EngineFault.Read)) }
{
    let mut lines = Lines::new(alloc, input)?;
    let mut summary = Summary::new(alloc);
    'lines: for number in 1..u64::MAX {
        let step = add_next(alloc, &mut lines, &mut summary)?;
        match step {
            Step::Added => {}
            Step::End => return Ok(Ok(summary)),
            Step::Faulty(wrong) => return Ok(Err((number, wrong))),
        }
    }
    Err(EngineFault::Memory)
}
