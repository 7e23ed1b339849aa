//! What comes of lines that are merged.
ghost use Rattle.app_merge.specs.Views.{wrong_view};
ghost use Rattle.judge_summary.specs.declared.fault.LineFault.TheVariants as faults;
ghost use Rattle.std.specs.Prelude.{◌≡◌, MatchOption};

use judge_summary::{Conclusion, LineFault};

/// What is wrong with a line.
#[derive(Clone, Copy, Debug, PartialEq, Eq)]
pub enum LineWrong {
    /// It is no answer, no error and no summary.
    Shape,
    /// A sum is over 18,446,744,073,709,551,615.
    Overflow,
}

/// What comes of lines that are merged.
#[derive(Debug, Drop)]
pub enum MergeOutcome {
    /// Their summary is written, of runs that come to this.
    Written(Conclusion),
    /// The line of this number, counted from 1, is at fault, for this reason: with the line that says so, and its LF.
    Refused(u64, LineWrong, Vec<u8>),
}

/// What is wrong with a line that has this fault, or nothing if memory ran out.
pub(crate) fn wrong_of(fault: LineFault) -> Option<LineWrong>
    ensures { MatchOption result (fault ≡ faults.Memory) (λ wrong. wrong_view wrong ≡ fault) }
{
    match fault {
        LineFault::Shape => Some(LineWrong::Shape),
        LineFault::Overflow => Some(LineWrong::Overflow),
        LineFault::Memory => None,
    }
}
