//! What is found of a run: its report, by its judgement, or by that of another run of its order or of its reduction.
ghost use Rattle.def_format.specs.Documents as documents;
ghost use Rattle.def_format.specs.Documents.{IsDocument, inquiry_of};
ghost use Rattle.def_format.specs.Readings as readings;
ghost use Rattle.def_format.specs.Reports as reports;
ghost use Rattle.def_format.specs.Sessions.{StreamResult, session};
ghost use Rattle.def_judgement.specs.Judgements.{IsReportOfResults};
ghost use Rattle.def_model.specs.Cuts.{total};
ghost use Rattle.judge_orders.specs.OrderViews.{HasOrder};
ghost use Rattle.judge_orders.specs.declared.order.Order as orders;
ghost use Rattle.judge_session.specs.Computations.{AreWellFormed};
ghost use Rattle.judge_session.specs.Unanswered.{IsUnanswered};
ghost use Rattle.judge_shared.specs.Sharing.{AreOfRun, AreRight, AreSound, AreTruths, IsFound, IsFoundOfRun, answers_view};
ghost use Rattle.pd_gather.specs.Views.{ReadingFits, results_view};
ghost use Rattle.pd_report.specs.Views.{report_view};
ghost use Rattle.pd_spec.specs.Views.{document_view};
ghost use Rattle.std.specs.Prelude.{◌≡◌, All, IfErr, IfOk, IfSome, IsOkUnless, List, Ok, length, true, ℕ};

use super::bare::{bare_answers, known_answers};
use super::found::{Found, Fresh};
use super::orders::Orders;
use super::reduced::reduced_answers;
use judge_orders::{Order, order_of};
use judge_session::{EngineFault, Unanswered, computation_of, traces_of};
use pd_clock::Computation;
use pd_engine::{Gate, answers_of};
use pd_expand::Crew;
use pd_gather::Gathered;
use pd_report::{Answer, Report};
use pd_spec::Spec;
use std::alloc::{AllocError, Global};
use std::random::RandomSource;
use std::sync::Wait;
use std::thread::Threads;

/// The report of a computation with this many messages and these answers.
fn judged(spec: &Spec, computation: &Computation<'_>, messages: u64, answers: Vec<Answer>) -> Report
    ensures { report_view result ≡ reports.Judged (length (document_view spec.now).names) (total computation.now.events)
        messages (answers_view answers.items) }
{
    Report::Judged {
        processes: spec.names().processes() as u64,
        events: computation.total(),
        messages,
        answers,
    }
}

/// What is found of a run of this document and this order with these answers, which are its own or the truth, and those
/// that are kept of it, which are the truth.
fn found_with(
    spec: &Spec,
    computation: &Computation<'_>,
    messages: u64,
    order: Order,
    answers: Vec<Answer>,
    kept: Option<Vec<Answer>>,
) -> Found
    requires beyond { (document_view spec.now).beyond_width ≡ true }
    requires names { length computation.now.events ≡ length (document_view spec.now).names }
    requires answers { AreOfRun (document_view spec.now) computation.now (answers_view answers.items) }
    requires kept { IfSome kept (λ known. AreTruths (document_view spec.now) computation.now
        (answers_view known.items)) }
    ensures { IsFoundOfRun (document_view spec.now) computation.now messages order result }
{
    computation.limits();
    def_judgement::one_document();
    def_orders::one_order();
    Found {
        report: judged(spec, computation, messages, answers),
        fresh: Some(Fresh {
            order,
            answers: kept,
        }),
    }
}

/// What is found of a run of this document and this order with these answers, which are the truth.
///
/// # Errors
/// An allocation was refused.
fn found_by_truths(
    alloc: Global,
    spec: &Spec,
    computation: &Computation<'_>,
    messages: u64,
    order: Order,
    truths: Vec<Answer>,
) -> Result<Found, AllocError>
    requires beyond { (document_view spec.now).beyond_width ≡ true }
    requires names { length computation.now.events ≡ length (document_view spec.now).names }
    requires truths { AreTruths (document_view spec.now) computation.now (answers_view truths.items) }
    ensures { IfOk result (IsFoundOfRun (document_view spec.now) computation.now messages order) }
{
    let kept = bare_answers(alloc, &truths)?;
    Ok(found_with(spec, computation, messages, order, truths, Some(kept)))
}

/// What is found of a run of this document and this order by its judgement, or if that leaves an answer unknown, by the
/// judgement of its reduction, if that has at least this many events, and leaves none.
///
/// # Errors
/// An allocation was refused.
fn run_judged_first<S: RandomSource + Threads + Wait + Sync, G: Gate + Sync>(
    crew: &Crew<'_, '_, S, G>,
    alloc: Global,
    spec: &Spec,
    computation: &Computation<'_>,
    messages: u64,
    order: Order,
    least: u64,
) -> Result<Found, AllocError>
    requires beyond { (document_view spec.now).beyond_width ≡ true }
    requires names { length computation.now.events ≡ length (document_view spec.now).names }
    ensures { IfOk result (IsFoundOfRun (document_view spec.now) computation.now messages order) }
{
    computation.limits();
    let answers = answers_of(crew, alloc, spec, computation)?;
    let known = known_answers(alloc, &answers)?;
    if known.is_some() {
        return Ok(found_with(spec, computation, messages, order, answers, known));
    }
    let reduced = reduced_answers(crew, alloc, spec, computation, least, computation.total())?;
    match reduced {
        Some(truths) => found_by_truths(alloc, spec, computation, messages, order, truths),
        None => Ok(found_with(spec, computation, messages, order, answers, None)),
    }
}

/// What is found of a run of this document and this order by its judgement, or by that of its reduction. That is judged
/// first if it has fewer than half as many events, which takes a fraction of the time, and else if the run's own
/// judgement leaves an answer unknown; it counts if it leaves none.
///
/// # Errors
/// An allocation was refused.
fn judged_run<S: RandomSource + Threads + Wait + Sync, G: Gate + Sync>(
    crew: &Crew<'_, '_, S, G>,
    alloc: Global,
    spec: &Spec,
    computation: &Computation<'_>,
    messages: u64,
    order: Order,
) -> Result<Found, AllocError>
    requires beyond { (document_view spec.now).beyond_width ≡ true }
    requires names { length computation.now.events ≡ length (document_view spec.now).names }
    ensures { IfOk result (IsFoundOfRun (document_view spec.now) computation.now messages order) }
{
    let half = computation.total() / 2;
    let reduced = reduced_answers(crew, alloc, spec, computation, 0, half)?;
    match reduced {
        Some(truths) => found_by_truths(alloc, spec, computation, messages, order, truths),
        None => run_judged_first(crew, alloc, spec, computation, messages, order, half),
    }
}

/// What is found of a run of this order, of which these answers are known.
///
/// # Errors
/// An allocation was refused.
fn shared_run(
    alloc: Global,
    spec: &Spec,
    computation: &Computation<'_>,
    messages: u64,
    known: &[Answer],
) -> Result<Found, AllocError>
    requires beyond { (document_view spec.now).beyond_width ≡ true }
    requires names { length computation.now.events ≡ length (document_view spec.now).names }
    ensures { IfOk result (λ found. (options : documents.Options) (bytes : List ℕ) (order : orders.Order)
        (traces : List readings.Trace) (streams : ℕ) (outcomes : List StreamResult)
        → IsDocument (inquiry_of options bytes) (document_view spec.now)
        → session (document_view spec.now).names streams outcomes ≡ Ok traces
        → AreWellFormed (document_view spec.now) traces computation.now messages
        → HasOrder (document_view spec.now) computation.now order
        → AreRight options bytes order (answers_view known.now)
        → IsFound options bytes (document_view spec.now) streams outcomes found) }
{
    computation.limits();
    let answers = bare_answers(alloc, known)?;
    Ok(Found {
        report: judged(spec, computation, messages, answers),
        fresh: None,
    })
}

/// What is found of a run by its judgement, if none shares its answers.
///
/// # Errors
/// An allocation was refused.
fn lone_run<S: Threads + Wait + Sync, G: Gate + Sync>(
    crew: &Crew<'_, '_, S, G>,
    alloc: Global,
    spec: &Spec,
    computation: &Computation<'_>,
    messages: u64,
) -> Result<Found, AllocError>
    requires names { length computation.now.events ≡ length (document_view spec.now).names }
    ensures { IfOk result (λ found. (options : documents.Options) (bytes : List ℕ) (traces : List readings.Trace)
        (streams : ℕ) (outcomes : List StreamResult)
        → session (document_view spec.now).names streams outcomes ≡ Ok traces
        → AreWellFormed (document_view spec.now) traces computation.now messages
        → IsFound options bytes (document_view spec.now) streams outcomes found) }
{
    let answers = answers_of(crew, alloc, spec, computation)?;
    Ok(Found {
        report: judged(spec, computation, messages, answers),
        fresh: None,
    })
}

/// What is found of a run of this document, whose bytes are beside it, by its computation: by its judgement, unless the
/// answers of its order are known.
///
/// # Errors
/// An allocation was refused.
fn ordered_run<S: RandomSource + Threads + Wait + Sync, G: Gate + Sync>(
    crew: &Crew<'_, '_, S, G>,
    alloc: Global,
    spec: &Spec,
    document: &[u8],
    computation: &Computation<'_>,
    messages: u64,
    orders: &Orders,
) -> Result<Found, AllocError>
    requires beyond { (document_view spec.now).beyond_width ≡ true }
    requires names { length computation.now.events ≡ length (document_view spec.now).names }
    ensures { IfOk result (λ found. (options : documents.Options) (traces : List readings.Trace)
        (streams : ℕ) (outcomes : List StreamResult)
        → IsDocument (inquiry_of options document.now) (document_view spec.now)
        → session (document_view spec.now).names streams outcomes ≡ Ok traces
        → AreWellFormed (document_view spec.now) traces computation.now messages → AreSound options orders.now
        → IsFound options document.now (document_view spec.now) streams outcomes found) }
{
    let order = order_of(alloc, spec, computation)?;
    match orders.find(document, &order) {
        Some(known) => shared_run(alloc, spec, computation, messages, known),
        None => judged_run(crew, alloc, spec, computation, messages, order),
    }
}

/// What is found of a run of this document by what its streams gave.
///
/// # Errors
/// `Refused` if the session is refused, and `Memory`.
fn found_of<S: RandomSource + Threads + Wait + Sync, G: Gate + Sync>(
    crew: &Crew<'_, '_, S, G>,
    alloc: Global,
    spec: &Spec,
    document: &[u8],
    gathered: Gathered,
    orders: &Orders,
) -> Result<Found, Unanswered>
    requires fits { All (ReadingFits (document_view spec.now).names) gathered.readings.items }
    ensures found { IfOk result (λ found. (options : documents.Options)
        → IsDocument (inquiry_of options document.now) (document_view spec.now) → AreSound options orders.now
        → IsFound options document.now (document_view spec.now) gathered.streams (results_view gathered.readings.items)
        found) }
    ensures refused { IfErr result (IsUnanswered (IsReportOfResults (document_view spec.now) gathered.streams
        (results_view gathered.readings.items))) }
{
    let traces = traces_of(alloc, spec, gathered)?;
    let (computation, messages) = computation_of(crew.runtime(), alloc, spec, &traces)?;
    let found = if spec.beyond_width() {
        ordered_run(crew, alloc, spec, document, &computation, messages, orders)?
    } else {
        lone_run(crew, alloc, spec, &computation, messages)?
    };
    Ok(found)
}

/// What is found of a run of this document, whose bytes are beside it, by what its streams gave: by its judgement,
/// unless the answers of its order are known. No answers are shared if the document doesn't ask for answers beyond its
/// width.
///
/// # Errors
/// `Memory`.
pub fn run_report<S: RandomSource + Threads + Wait + Sync, G: Gate + Sync>(
    crew: &Crew<'_, '_, S, G>,
    alloc: Global,
    spec: &Spec,
    document: &[u8],
    gathered: Gathered,
    orders: &Orders,
) -> Result<Found, EngineFault>
    requires fits { All (ReadingFits (document_view spec.now).names) gathered.readings.items }
    ensures found { IfOk result (λ found. (options : documents.Options)
        → IsDocument (inquiry_of options document.now) (document_view spec.now) → AreSound options orders.now
        → IsFound options document.now (document_view spec.now) gathered.streams (results_view gathered.readings.items)
        found) }
    ensures err { IsOkUnless result EngineFault.Memory }
{
    match found_of(crew, alloc, spec, document, gathered, orders) {
        Ok(found) => Ok(found),
        Err(unanswered) => match unanswered {
            Unanswered::Refused(refusal) => Ok(Found {
                report: Report::Refused(refusal),
                fresh: None,
            }),
            Unanswered::Memory => Err(EngineFault::Memory),
        },
    }
}
