//! The report that stands of a run, once the runs before it are known.
ghost use Rattle.def_format.specs.Documents as documents;
ghost use Rattle.def_format.specs.Documents.{Document};
ghost use Rattle.def_format.specs.Sessions.{StreamResult};
ghost use Rattle.judge_shared.specs.Sharing.{AreSound, IsFound, IsFresh, IsRunReportOfResults, answers_view, with_answers};
ghost use Rattle.pd_report.specs.Views.{report_view};
ghost use Rattle.std.specs.Prelude.{◌≡◌, IfOk, List, OnOk, ℕ};

use super::bare::bare_answers;
use super::found::{Found, Fresh};
use super::orders::Orders;
use judge_orders::Order;
use pd_report::{Answer, Report};
use std::alloc::{AllocError, Global};

/// The report with these answers in place of its own, if it has any.
fn with_answers(report: Report, answers: Vec<Answer>) -> Report
    ensures { report_view result ≡ with_answers (report_view report) (answers_view answers.items) }
{
    match report {
        Report::Judged {
            processes,
            events,
            messages,
            ..
        } => Report::Judged {
            processes,
            events,
            messages,
            answers,
        },
        Report::Refused(refusal) => Report::Refused(refusal),
    }
}

/// The report that stands of a run of this document and this order with an unknown answer: with the answers of an
/// earlier run of its order, if they are known. The order is noted.
///
/// # Errors
/// An allocation was refused.
fn unknown_report(
    orders: &mut Orders,
    alloc: Global,
    document: Vec<u8>,
    report: Report,
    order: Order,
) -> Result<Report, AllocError>
    ensures { IfOk result (λ given. (options : documents.Options) (of : Document) (streams : ℕ)
        (outcomes : List StreamResult) → AreSound options orders.old
        → IsRunReportOfResults of streams outcomes (report_view report)
        → IsFresh options document.items of streams outcomes (report_view report)
        (record { order = order; answers = None })
        → IsRunReportOfResults of streams outcomes (report_view given) × AreSound options orders.new) }
{
    match orders.find(&document, &order) {
        Some(found) => {
            let answers = bare_answers(alloc, found)?;
            Ok(with_answers(report, answers))
        }
        None => {
            orders.note(document, order, None)?;
            Ok(report)
        }
    }
}

/// The report that stands of a run of this document of which this is found, and notes its order. If it has an unknown
/// answer, and an earlier run of its order has none, its answers are those.
///
/// # Errors
/// An allocation was refused.
pub(crate) fn final_report(
    orders: &mut Orders,
    alloc: Global,
    document: Vec<u8>,
    found: Found,
) -> Result<Report, AllocError>
    ensures { IfOk result (λ given. (options : documents.Options) (of : Document) (streams : ℕ)
        (outcomes : List StreamResult) → AreSound options orders.old
        → IsFound options document.items of streams outcomes found
        → IsRunReportOfResults of streams outcomes (report_view given) × AreSound options orders.new) }
{
    let Found { report, fresh } = found;
    match fresh {
        None => Ok(report),
        Some(Fresh { order, answers }) => match answers {
            None => unknown_report(orders, alloc, document, report, order),
            Some(known) => {
                orders.note(document, order, Some(known))?;
                Ok(report)
            }
        },
    }
}
