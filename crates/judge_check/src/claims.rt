//! How a report stands to the session that it is said to be of.
ghost use Rattle.judge_check.specs.Found.{IsFoundOf, IsFoundOfRefused};
ghost use Rattle.judge_check.specs.Views.{finding_view};
ghost use Rattle.def_format.specs.Readings as readings;
ghost use Rattle.def_format.specs.Reports as reports;
ghost use Rattle.def_judgement.specs.Judgements.{recorded_of};
ghost use Rattle.def_model.specs.Cuts.{total};
ghost use Rattle.def_model.specs.Messages.{HasMessages};
ghost use Rattle.pd_report.specs.Views as views;
ghost use Rattle.pd_spec.specs.Views.{document_view};
ghost use Rattle.std.specs.Prelude.{◌≡◌, ◌↔◌, List, IfOk, IsTrue, length};

use super::evidence::verdicts;
use super::finding::Finding;
use pd_clock::Computation;
use pd_report::{Refusal, Report, same_refusal};
use pd_spec::Spec;
use std::alloc::{AllocError, Global};

/// Whether the report is this refusal.
fn is_refusal(claimed: &Report, refusal: &Refusal) -> bool
    ensures { IsTrue result ↔ (views.report_view claimed.now ≡ reports.Refused (views.refusal_view refusal.now)) }
{
    match claimed {
        Report::Refused(reported) => same_refusal(reported, refusal),
        Report::Judged { .. } => false,
    }
}

/// What is found of a report, if the session is refused like this.
pub fn find_refused(claimed: &Report, refusal: &Refusal) -> Finding
    ensures { IsFoundOfRefused (views.refusal_view refusal.now) (views.report_view claimed.now) (finding_view result) }
{
    Finding::OfRefusal(is_refusal(claimed, refusal))
}

/// Whether the counts are those of the session.
fn are_counts(
    spec: &Spec,
    computation: &Computation<'_>,
    messages: u64,
    counts: (u64, u64, u64),
) -> bool
    ensures { IsTrue result ↔ ((counts.0 ≡ length (document_view spec.now).names)
        × (counts.1 ≡ total computation.now.events) × (counts.2 ≡ messages)) }
{
    let (processes, events, matched) = counts;
    processes == spec.names().processes() as u64
        && events == computation.total()
        && matched == messages
}

/// What is found of a report, if the session is well formed and makes this computation with this many messages.
///
/// # Errors
/// Memory was refused.
pub fn find_formed(
    alloc: Global,
    spec: &Spec,
    claimed: &Report,
    computation: &Computation<'_>,
    messages: u64,
) -> Result<Finding, AllocError>
    requires one_each { length computation.now.events ≡ length (document_view spec.now).names }
    requires counted { HasMessages computation.now.events messages }
    ensures { IfOk result (λ finding. (traces : List readings.Trace)
        → computation.now ≡ recorded_of (document_view spec.now) traces
        → IsFoundOf (document_view spec.now) traces messages (views.report_view claimed.now) (finding_view finding)) }
{
    match claimed {
        Report::Judged {
            processes,
            events,
            messages: matched,
            answers,
        } => {
            let counts = (*processes, *events, *matched);
            let good = are_counts(spec, computation, messages, counts);
            let found = verdicts(alloc, spec, computation, answers)?;
            Ok(Finding::OfSession(good, found))
        }
        Report::Refused(_) => Ok(Finding::OfRefusal(false)),
    }
}
