//! What is written of a session, and of an entry.
ghost use Rattle.app_arguments.specs.ConditionViews.{conclusion_view, fail_on_view};
ghost use Rattle.app_batch.specs.Answers.{IsAnswer, IsFailure, IsJudgedTo, IsSessionAnswer, status_for};
ghost use Rattle.app_batch.specs.Entries.{IsEntry, entry_said};
ghost use Rattle.app_batch.specs.Views.{answer_view};
ghost use Rattle.def_format.specs.Documents.{IsDocument, inquiry_of};
ghost use Rattle.def_format.specs.Limits.{worker_limit};
ghost use Rattle.out_lines.specs.Lines.{answer_data, line_text};
ghost use Rattle.pd_report.specs.Views.{report_view};
ghost use Rattle.pd_spec.specs.Views.{IsFaultOf, document_view, options_view};
ghost use Rattle.read_items.specs.GivenItems.{IsItem};
ghost use Rattle.read_lines.specs.GivenLines.{IsLine};
ghost use Rattle.read_sessions.specs.SessionLines.{session_bundle, session_line};
ghost use Rattle.read_sessions.specs.Views.{line_view, name_view, session_view};
ghost use Rattle.app_arguments.specs.Statuses.{HasNamed};
ghost use Rattle.std.specs.Prelude.{◌≡◌, ◌≤◌, [], ℕ, IfOk, IsOkUnless, List, map, option_map, string_bytes};

use super::answer::Answer;
use super::asked::Asked;
use super::texts::report_of_texts;
use app_arguments::FailOn;
use app_host::conclusion_status;
use def_judgement::one_document;
use judge_session::{EngineFault, of_document};
use out_lines::{answer_line, error_line};
use pd_engine::Report;
use pd_pred::Names;
use pd_spec::{Spec, SpecFault};
use read_lines::Line;
use read_sessions::{Session, SessionLine, long_bundle, read_session_bundle, read_session_line};
use std::alloc::{AllocError, Global};
use std::random::RandomSource;
use std::sync::Wait;
use std::thread::Threads;

/// The status that `judge` ends with after this report.
fn status_for(fail_on: &FailOn<'_>, report: &Report) -> u8
    ensures { result ≡ status_for (fail_on_view fail_on.now) (report_view report.now) }
{
    conclusion_status(fail_on.conclusion(report))
}

/// What is written of a line of this number that holds no session that can be judged, for this reason.
pub(crate) fn failure(
    alloc: Global,
    id: Option<&str>,
    number: u64,
    error: &str,
) -> Result<Answer, AllocError>
    ensures { IfOk result (λ answer. IsFailure (option_map (λ id. id.now) id.entry) number error.now
        (answer_view answer)) }
{
    Ok(Answer {
        status: 1,
        line: error_line(alloc, id, error, number)?,
    })
}

/// The name of a session, if it has one.
fn id_of(id: &Option<String>) -> Option<&str>
    ensures { option_map (λ id. id.now) result ≡ name_view id.now }
{
    match id {
        Some(id) => Some(id.as_str()),
        None => None,
    }
}

/// What is written of a session with this document, which has each predicate that is named.
fn judged_answer<S: RandomSource + Threads + Wait + Sync>(
    rt: &S,
    alloc: Global,
    session: &Session,
    spec: &Spec,
    asked: &Asked<'_>,
) -> Result<Answer, EngineFault>
    requires document { IsDocument (inquiry_of (options_view asked.now.options.now)
        (string_bytes session.now.document)) (document_view spec.now) }
    requires some_workers { 1 ≤ asked.now.workers }
    requires few_workers { asked.now.workers ≤ worker_limit }
    ensures answer { IfOk result (λ answer. IsJudgedTo (fail_on_view asked.now.fail_on.now) (name_view session.now.id)
        (inquiry_of (options_view asked.now.options.now) (string_bytes session.now.document))
        (map string_bytes session.now.streams.items) (answer_view answer)) }
    ensures err { IsOkUnless result EngineFault.Memory }
{
    one_document();
    let report = report_of_texts(rt, alloc, spec, &session.streams, asked.workers)?;
    let status = status_for(asked.fail_on, &report);
    let line = answer_line(alloc, id_of(&session.id), spec.names(), &report, status)?;
    Ok(Answer { status, line })
}

/// The line of what a session of this name comes to whose document is refused.
fn refused_line(
    alloc: Global,
    id: Option<&str>,
    report: &Report,
    status: u8,
) -> Result<Vec<u8>, AllocError>
    ensures { IfOk result (λ line. line.items
        ≡ line_text (answer_data (option_map (λ id. id.now) id.entry) [] (report_view report.now) status)) }
{
    let none = Names::new(Vec::new(alloc));
    answer_line(alloc, id, &none, report, status)
}

/// What is written of a session whose document has this fault.
fn refused_answer(
    alloc: Global,
    session: &Session,
    fault: SpecFault,
    asked: &Asked<'_>,
) -> Result<Answer, EngineFault>
    requires { IsFaultOf (inquiry_of (options_view asked.now.options.now) (string_bytes session.now.document)) fault }
    ensures answer { IfOk result (λ answer. IsJudgedTo (fail_on_view asked.now.fail_on.now) (name_view session.now.id)
        (inquiry_of (options_view asked.now.options.now) (string_bytes session.now.document))
        (map string_bytes session.now.streams.items) (answer_view answer)) }
    ensures named { IfOk result (λ _. HasNamed (fail_on_view asked.now.fail_on.now)
        (inquiry_of (options_view asked.now.options.now) (string_bytes session.now.document))) }
    ensures err { IsOkUnless result EngineFault.Memory }
{
    one_document();
    def_judgement::judgement_is_true();
    let report = Report::Refused(of_document(alloc, fault)?);
    let status = status_for(asked.fail_on, &report);
    let line = refused_line(alloc, id_of(&session.id), &report, status)?;
    Ok(Answer { status, line })
}

/// What is written of a session with this document, in the line of this number.
fn document_answer<S: RandomSource + Threads + Wait + Sync>(
    rt: &S,
    alloc: Global,
    number: u64,
    session: &Session,
    spec: &Spec,
    asked: &Asked<'_>,
) -> Result<Answer, EngineFault>
    requires document { IsDocument (inquiry_of (options_view asked.now.options.now)
        (string_bytes session.now.document)) (document_view spec.now) }
    requires some_workers { 1 ≤ asked.now.workers }
    requires few_workers { asked.now.workers ≤ worker_limit }
    ensures answer { IfOk result (λ answer. IsSessionAnswer (options_view asked.now.options.now)
        (fail_on_view asked.now.fail_on.now) number (session_view session.now) (answer_view answer)) }
    ensures err { IsOkUnless result EngineFault.Memory }
{
    one_document();
    match asked.fail_on.unknown_name(spec.predicates()) {
        Some(_) => {
            let error = "no predicate of this name";
            Ok(failure(alloc, id_of(&session.id), number, error)?)
        }
        None => judged_answer(rt, alloc, session, spec, asked),
    }
}

/// What is written of a session in the line of this number.
fn session_answer<S: RandomSource + Threads + Wait + Sync>(
    rt: &S,
    alloc: Global,
    number: u64,
    session: &Session,
    asked: &Asked<'_>,
) -> Result<Answer, EngineFault>
    requires some_workers { 1 ≤ asked.now.workers }
    requires few_workers { asked.now.workers ≤ worker_limit }
    ensures answer { IfOk result (λ answer. IsSessionAnswer (options_view asked.now.options.now)
        (fail_on_view asked.now.fail_on.now) number (session_view session.now) (answer_view answer)) }
    ensures err { IsOkUnless result EngineFault.Memory }
{
    match Spec::read_with_options(alloc, session.document.as_bytes(), asked.options) {
        Ok(spec) => document_answer(rt, alloc, number, session, &spec, asked),
        Err(fault) => refused_answer(alloc, session, fault, asked),
    }
}

/// What is written of the line of this number, which says this.
fn said_answer<S: RandomSource + Threads + Wait + Sync>(
    rt: &S,
    alloc: Global,
    number: u64,
    said: &SessionLine,
    asked: &Asked<'_>,
) -> Result<Answer, EngineFault>
    requires some_workers { 1 ≤ asked.now.workers }
    requires few_workers { asked.now.workers ≤ worker_limit }
    ensures answer { IfOk result (λ answer. IsAnswer (options_view asked.now.options.now)
        (fail_on_view asked.now.fail_on.now) number (line_view said.now) (answer_view answer)) }
    ensures err { IsOkUnless result EngineFault.Memory }
{
    match said {
        SessionLine::Holds(session) => session_answer(rt, alloc, number, session, asked),
        SessionLine::Tells(id, error) => { Ok(failure(alloc, id_of(id), number, error.as_str())?) }
        SessionLine::NoSession => {
            let error =
                "no object with a text document, an array of texts streams, and maybe a text id";
            Ok(failure(alloc, None, number, error)?)
        }
        SessionLine::NoJson => Ok(failure(alloc, None, number, "no JSON value")?),
    }
}

/// What is written of the line of this number.
fn line_answer<S: RandomSource + Threads + Wait + Sync>(
    rt: &S,
    alloc: Global,
    number: u64,
    line: &Line,
    asked: &Asked<'_>,
) -> Result<Answer, EngineFault>
    requires some_workers { 1 ≤ asked.now.workers }
    requires few_workers { asked.now.workers ≤ worker_limit }
    ensures answer { IfOk result (λ answer. (bytes : List ℕ) → IsLine line.now bytes
        → IsAnswer (options_view asked.now.options.now) (fail_on_view asked.now.fail_on.now) number
        (session_line bytes) (answer_view answer)) }
    ensures err { IsOkUnless result EngineFault.Memory }
{
    match line {
        Line::Whole(bytes) => {
            let said = read_session_line(alloc, bytes)?;
            said_answer(rt, alloc, number, &said, asked)
        }
        Line::Long => Ok(failure(alloc, None, number, "over 134217728 bytes")?),
    }
}

/// What is written of the bundle of this number.
fn bundle_answer<S: RandomSource + Threads + Wait + Sync>(
    rt: &S,
    alloc: Global,
    number: u64,
    item: &Line,
    asked: &Asked<'_>,
) -> Result<Answer, EngineFault>
    requires some_workers { 1 ≤ asked.now.workers }
    requires few_workers { asked.now.workers ≤ worker_limit }
    ensures answer { IfOk result (λ answer. (bytes : List ℕ) → IsItem item.now bytes
        → IsAnswer (options_view asked.now.options.now) (fail_on_view asked.now.fail_on.now) number
        (session_bundle number bytes) (answer_view answer)) }
    ensures err { IsOkUnless result EngineFault.Memory }
{
    match item {
        Line::Whole(bytes) => {
            let said = read_session_bundle(alloc, number, bytes)?;
            said_answer(rt, alloc, number, &said, asked)
        }
        Line::Long => {
            let said = long_bundle(alloc, number)?;
            said_answer(rt, alloc, number, &said, asked)
        }
    }
}

/// What is written of the entry of this number.
///
/// # Errors
/// `Memory`.
pub(crate) fn entry_answer<S: RandomSource + Threads + Wait + Sync>(
    rt: &S,
    alloc: Global,
    number: u64,
    entry: &Line,
    asked: &Asked<'_>,
) -> Result<Answer, EngineFault>
    requires some_workers { 1 ≤ asked.now.workers }
    requires few_workers { asked.now.workers ≤ worker_limit }
    ensures answer { IfOk result (λ answer. (bytes : List ℕ) → IsEntry asked.now.in_bundles entry.now bytes
        → IsAnswer (options_view asked.now.options.now) (fail_on_view asked.now.fail_on.now) number
        (entry_said asked.now.in_bundles number bytes) (answer_view answer)) }
    ensures err { IsOkUnless result EngineFault.Memory }
{
    if asked.in_bundles {
        return bundle_answer(rt, alloc, number, entry, asked);
    }
    line_answer(rt, alloc, number, entry, asked)
}
