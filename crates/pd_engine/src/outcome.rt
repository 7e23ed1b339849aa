//! How a session was judged.
ghost use Rattle.pd_engine.specs.Ends.{IsOutcomeOf, outcome_view};
ghost use Rattle.def_judgement.specs.Headline.{is_judged};
ghost use Rattle.pd_report.specs.Views.{report_view};
ghost use Rattle.std.specs.Prelude.{◌≡◌};

use judge_session::EngineFault;
use pd_report::Report;

/// How a session was judged.
#[derive(Clone, Copy, Debug, PartialEq, Eq)]
pub enum Outcome {
    /// Each predicate has its answer.
    Judged,
    /// The session is refused.
    Refused,
}

/// Whether a report has answers or is a refusal.
pub fn report_outcome(report: &Report) -> Outcome
    ensures { outcome_view result ≡ is_judged (report_view report.now) }
{
    match report {
        Report::Judged { .. } => Outcome::Judged,
        Report::Refused(_) => Outcome::Refused,
    }
}

/// How a session was judged whose report this is, if there is one.
pub(crate) fn outcome_of(reported: Result<Report, EngineFault>) -> Result<Outcome, EngineFault>
    ensures { IsOutcomeOf reported result }
{
    match reported {
        Ok(report) => Ok(report_outcome(&report)),
        Err(fault) => Err(fault),
    }
}
