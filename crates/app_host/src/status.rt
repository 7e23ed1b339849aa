//! Exit statuses, and what is reported on the errors.
ghost use Rattle.app_host.specs.Faults.{concluded_ending, ending_view, failure_view, judged_ending, named_ending, report_ending};
ghost use Rattle.app_arguments.specs.ConditionViews.{conclusion_view, fail_on_view};
ghost use Rattle.def_judgement.specs.Headline.{is_judged};
ghost use Rattle.app_arguments.specs.Statuses.{IsLineOf, IsNoPredicateLine, Reports, WritesUpTo, line_of_failure, status_of, status_of_failure};
ghost use Rattle.pd_report.specs.Views.{report_view};
ghost use Rattle.std.specs.Prelude.{◌≡◌};

use super::line::write_line;
use app_arguments::{Conclusion, FailOn};
use judge_session::EngineFault;
use pd_engine::{Outcome, Report, report_outcome};
use std::io::Write;

/// The session is judged and has no answer to fail on, each run that is tested passes, nothing that a check found is
/// bad, or the help that was asked for is written.
pub const SUCCESS: u8 = 0;

/// The session is refused, and its report says why; a run that is tested could not be judged, and none fails; or
/// something that a check found is bad.
pub const REFUSED: u8 = 1;

/// The arguments are refused, or give the name of a predicate that the session doesn't have.
pub const MISUSED: u8 = 2;

/// The input or a file can't be read or is too long, a port can't be bound or a stream not be accepted, or the output
/// can't be written.
pub const FAILED: u8 = 3;

/// Memory runs out.
pub const NO_MEMORY: u8 = 4;

/// The session is judged, and has an answer to fail on; or a run that is tested fails.
pub const ALARMED: u8 = 5;

/// The exit status of a fault.
fn fault_status(fault: &EngineFault) -> u8
    ensures { result ≡ status_of_failure (failure_view fault.now) }
{
    match fault {
        EngineFault::Memory => NO_MEMORY,
        EngineFault::Write | EngineFault::Read | EngineFault::BundleLong => FAILED,
    }
}

/// The line that reports a fault, with its line feed.
fn fault_line(fault: &EngineFault) -> &'static str
    ensures { result.now ≡ line_of_failure (failure_view fault.now) }
{
    match fault {
        EngineFault::Memory => "monitor: memory\n",
        EngineFault::Write => "monitor: write\n",
        EngineFault::Read => "monitor: read\n",
        EngineFault::BundleLong => "monitor: bundle too long\n",
    }
}

/// Writes the line that reports a fault, and gives the fault's exit status. If the line can't be written whole, the
/// rest is left off.
pub fn report_fault<E: Write>(fault: &EngineFault, errors: &mut E) -> u8
    ensures status { result ≡ status_of_failure (failure_view fault.now) }
    ensures line { WritesUpTo (IsLineOf (failure_view fault.now)) (E.contents errors.old) (E.contents errors.new) }
{
    write_line(fault_line(fault).as_bytes(), errors);
    fault_status(fault)
}

/// The exit status by how a check ended, whose fault is reported.
pub fn report_end<E: Write>(end: &Result<bool, EngineFault>, errors: &mut E) -> u8
    ensures status { result ≡ status_of (ending_view end.now) }
    ensures errors { Reports (ending_view end.now) (E.contents errors.old) (E.contents errors.new) }
{
    match end {
        Ok(true) => SUCCESS,
        Ok(false) => REFUSED,
        Err(fault) => report_fault(fault, errors),
    }
}

/// The exit status of a run that wrote this report.
fn report_status(report: &Report) -> u8
    ensures { result ≡ status_of (judged_ending (is_judged (report_view report.now))) }
{
    match report_outcome(report) {
        Outcome::Judged => SUCCESS,
        Outcome::Refused => REFUSED,
    }
}

/// The exit status by how the judgement of a bundle ended, whose fault is reported.
pub fn report_bundle<E: Write>(end: &Result<Report, EngineFault>, errors: &mut E) -> u8
    ensures status { result ≡ status_of (report_ending end.now) }
    ensures errors { Reports (report_ending end.now) (E.contents errors.old) (E.contents errors.new) }
{
    match end {
        Ok(report) => report_status(report),
        Err(fault) => report_fault(fault, errors),
    }
}

/// Writes the line that reports that there is no predicate of a name in the arguments, and gives the exit status.
pub fn report_no_predicate<E: Write>(errors: &mut E) -> u8
    ensures status { result ≡ 2 }
    ensures line { WritesUpTo IsNoPredicateLine (E.contents errors.old) (E.contents errors.new) }
{
    write_line(b"monitor: no predicate of this name\n", errors);
    MISUSED
}

/// The exit status of a run that wrote a report which comes to this.
pub fn conclusion_status(end: Conclusion) -> u8
    ensures { result ≡ status_of (concluded_ending (conclusion_view end)) }
{
    match end {
        Conclusion::Refused => REFUSED,
        Conclusion::Met => ALARMED,
        Conclusion::Unmet => SUCCESS,
    }
}

/// The exit status by how the judgement of files ended that is to fail on these answers, whose fault is reported, and
/// that there is no predicate of a name.
pub fn report_judgement<E: Write>(
    fail_on: &FailOn<'_>,
    end: &Result<Option<Report>, EngineFault>,
    errors: &mut E,
) -> u8
    ensures status { result ≡ status_of (named_ending (fail_on_view fail_on.now) end.now) }
    ensures errors { Reports (named_ending (fail_on_view fail_on.now) end.now) (E.contents errors.old)
        (E.contents errors.new) }
{
    match end {
        Ok(Some(report)) => conclusion_status(fail_on.conclusion(report)),
        Ok(None) => report_no_predicate(errors),
        Err(fault) => report_fault(fault, errors),
    }
}
