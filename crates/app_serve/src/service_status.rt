//! The exit status of a server's run.
ghost use Rattle.app_arguments.specs.ConditionViews.{fail_on_view};
ghost use Rattle.app_arguments.specs.Statuses.{IsLineOf, NetworkFailure, Reports, WritesUpTo, status_of, status_of_failure};
ghost use Rattle.app_serve.specs.ServiceFaults.{named_service_ending};
ghost use Rattle.std.specs.Prelude.{◌≡◌};

use super::service_fault::ServiceFault;
use app_arguments::FailOn;
use app_host::{FAILED, conclusion_status, report_fault, report_no_predicate, write_line};
use judge_session::EngineFault;
use pd_report::Report;
use std::io::Write;

/// Writes the line that reports that a place can't be bound or a stream not be accepted, or not in time, and gives the
/// exit status.
fn report_network<E: Write>(errors: &mut E) -> u8
    ensures status { result ≡ status_of_failure NetworkFailure }
    ensures line { WritesUpTo (IsLineOf NetworkFailure) (E.contents errors.old) (E.contents errors.new) }
{
    write_line(b"monitor: network\n", errors);
    FAILED
}

/// The exit status by how a server's run ended, whose fault is reported, and that there is no predicate of a name.
pub fn report_service_end<E: Write>(
    fail_on: &FailOn<'_>,
    end: &Result<Option<Report>, ServiceFault>,
    errors: &mut E,
) -> u8
    ensures status { result ≡ status_of (named_service_ending (fail_on_view fail_on.now) end.now) }
    ensures errors { Reports (named_service_ending (fail_on_view fail_on.now) end.now) (E.contents errors.old)
        (E.contents errors.new) }
{
    match end {
        Ok(Some(report)) => conclusion_status(fail_on.conclusion(report)),
        Ok(None) => report_no_predicate(errors),
        Err(ServiceFault::Engine(fault)) => report_fault(fault, errors),
        Err(ServiceFault::Network | ServiceFault::Late) => report_network(errors),
        Err(ServiceFault::Unkept) => report_fault(&EngineFault::Write, errors),
    }
}
