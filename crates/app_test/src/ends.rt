//! How a test ended: the exit status, and what is reported.
ghost use Rattle.app_arguments.specs.Statuses.{Reports, status_of};
ghost use Rattle.app_test.specs.Tests.{ending_of, test_ending};
ghost use Rattle.judge_runs.specs.Views.{conclusion_view};
ghost use Rattle.std.specs.Prelude.{◌≡◌};

use app_host::{ALARMED, REFUSED, SUCCESS, report_fault};
use judge_runs::Conclusion;
use judge_session::EngineFault;
use std::io::Write;

/// The exit status of a test that comes to this.
fn status_of(end: Conclusion) -> u8
    ensures { result ≡ status_of (ending_of (conclusion_view end)) }
{
    match end {
        Conclusion::AllPass => SUCCESS,
        Conclusion::SomeFails => ALARMED,
        Conclusion::SomeNotJudged => REFUSED,
    }
}

/// The exit status by how a test ended, whose fault is reported.
pub fn report_test<E: Write>(end: &Result<Conclusion, EngineFault>, errors: &mut E) -> u8
    ensures status { result ≡ status_of (test_ending end.now) }
    ensures errors { Reports (test_ending end.now) (E.contents errors.old) (E.contents errors.new) }
{
    match end {
        Ok(end) => status_of(*end),
        Err(fault) => report_fault(fault, errors),
    }
}
