//! The verdicts on the evidence of a report's answers.
ghost use Rattle.judge_check.specs.Views.{verdicts_view, checked_view, verdict_view};
ghost use Rattle.judge_check.specs.Verdicts.{IsCheckedBy, IsCutVerdict, IsPathOf, IsPathVerdict};
ghost use Rattle.def_judgement.specs.Judgements.{recorded_of};
ghost use Rattle.def_format.specs.Names.{process_named};
ghost use Rattle.def_format.specs.Readings as readings;
ghost use Rattle.def_judgement.specs.Findings.{IsAnswersFinding, IsGoodPath};
ghost use Rattle.def_model.specs.Predicates.{test_of};
ghost use Rattle.pd_pred.specs.Views.{predicate_view};
ghost use Rattle.pd_report.specs.Steps.{names_view};
ghost use Rattle.pd_report.specs.Views as views;
ghost use Rattle.pd_spec.specs.Named.{named_view};
ghost use Rattle.pd_spec.specs.Views.{document_view};
ghost use Rattle.std.specs.Prelude.{◌≡◌, ◌<◌, ◌↔◌, List, IfOk, IsTrue, length, map, string_bytes};

use super::checked::Checked;
use super::verdict::Verdict;
use pd_clock::{Computation, Cut};
use pd_evidence::{check_cut, check_path};
use pd_pred::{Names, Pred};
use pd_report::{Answer, Definitely, Path, Possibly};
use pd_spec::{NamedPred, Spec};
use std::alloc::{AllocError, Global};

/// The process of each of these names, counted from 0, if it is there.
fn processes_of(
    alloc: Global,
    names: &Names,
    reported: &[String],
) -> Result<Vec<Option<usize>>, AllocError>
    ensures { IfOk result (λ processes. processes.items ≡ map (process_named names.now) (names_view reported.now)) }
{
    let mut processes = Vec::with_capacity(alloc, reported.len())?;
    for name in reported {
        processes.push(names.find(name))?;
    }
    Ok(processes)
}

/// The processes of a path's names, counted from 0, if each is there. A name is looked up once.
///
/// # Errors
/// Out of memory.
pub fn path_of(
    alloc: Global,
    names: &Names,
    reported: &Path,
) -> Result<Option<Vec<usize>>, AllocError>
    ensures { IfOk result (IsPathOf names.now reported.now) }
{
    let (kept, steps) = reported.parts();
    let processes = processes_of(alloc, names, kept)?;
    let mut path = Vec::with_capacity(alloc, steps.len())?;
    for &step in steps {
        match processes[step] {
            Some(p) => path.push(p)?,
            None => return Ok(None),
        }
    }
    Ok(Some(path))
}

/// The verdict on the cut, if one is printed.
fn cut_verdict(
    alloc: Global,
    computation: &Computation<'_>,
    pred: &Pred,
    possibly: &Possibly,
) -> Result<Verdict, AllocError>
    ensures { IfOk result (λ verdict. IsCutVerdict computation.now.events
        (test_of computation.now (predicate_view pred.now)) (views.possibly_view possibly.now) (verdict_view verdict)) }
{
    match possibly {
        Possibly::Yes(counts) => {
            let cut = Cut::new(alloc, counts)?;
            Ok(Verdict::by_test(check_cut(computation, pred, &cut)))
        }
        Possibly::No | Possibly::Unknown(_) => Ok(Verdict::Unchecked),
    }
}

/// Whether the names are those of the processes of an observation with no satisfying cut.
fn avoids(
    alloc: Global,
    names: &Names,
    computation: &Computation<'_>,
    pred: &Pred,
    reported: &Path,
) -> Result<bool, AllocError>
    requires { length computation.now.events ≡ length names.now }
    ensures { IfOk result (λ good. IsTrue good
        ↔ IsGoodPath names.now computation.now.events (test_of computation.now (predicate_view pred.now))
        reported.now) }
{
    names.differ();
    match path_of(alloc, names, reported)? {
        Some(path) => check_path(alloc, computation, pred, &path),
        None => Ok(false),
    }
}

/// The verdict on the path, if one is printed.
fn path_verdict(
    alloc: Global,
    names: &Names,
    computation: &Computation<'_>,
    pred: &Pred,
    definitely: &Definitely,
) -> Result<Verdict, AllocError>
    requires { length computation.now.events ≡ length names.now }
    ensures { IfOk result (λ verdict. IsPathVerdict names.now computation.now.events
        (test_of computation.now (predicate_view pred.now)) (views.definitely_view definitely.now)
        (verdict_view verdict)) }
{
    match definitely {
        Definitely::No(reported) => {
            let good = avoids(alloc, names, computation, pred, reported)?;
            Ok(Verdict::by_test(good))
        }
        Definitely::Yes(_) | Definitely::Unknown(_) => Ok(Verdict::Unchecked),
    }
}

/// The verdicts on the answers for one predicate.
fn answer_verdicts(
    alloc: Global,
    names: &Names,
    computation: &Computation<'_>,
    asked: &NamedPred,
    answer: &Answer,
) -> Result<Checked, AllocError>
    requires { length computation.now.events ≡ length names.now }
    ensures { IfOk result (λ checked. IsCheckedBy names.now computation.now (
      named_view asked.now,
      views.answer_view answer.now,
    ) (checked_view checked)) }
{
    Ok(Checked {
        name: answer.name.clone()?,
        possibly: cut_verdict(alloc, computation, &asked.pred, &answer.possibly)?,
        definitely: path_verdict(alloc, names, computation, &asked.pred, &answer.definitely)?,
    })
}

/// Whether the answer is for the predicate, by name.
fn is_for(asked: &NamedPred, answer: &Answer) -> bool
    ensures { IsTrue result ↔ (string_bytes answer.now.name ≡ string_bytes asked.now.name) }
{
    answer.name.as_str() == asked.name.as_str()
}

/// Whether the answers are for these predicates, by name and in order.
fn are_for(asked: &[NamedPred], answers: &[Answer]) -> bool
    ensures { IsTrue result ↔ (map (λ answer. string_bytes answer.name) answers.now
        ≡ map (λ predicate. string_bytes predicate.name) asked.now) }
{
    if asked.len() != answers.len() {
        return false;
    }
    for i in 0..answers.len() {
        if !is_for(&asked[i], &answers[i]) {
            return false;
        }
    }
    true
}

/// The verdicts on a report's answers, if they are for the document's predicates, by name and in order.
pub(crate) fn verdicts(
    alloc: Global,
    spec: &Spec,
    computation: &Computation<'_>,
    answers: &[Answer],
) -> Result<Option<Vec<Checked>>, AllocError>
    requires { length computation.now.events ≡ length (document_view spec.now).names }
    ensures { IfOk result (λ found. (traces : List readings.Trace)
        → computation.now ≡ recorded_of (document_view spec.now) traces
        → IsAnswersFinding (document_view spec.now) traces (map views.answer_view answers.now) (verdicts_view found)) }
{
    let asked = spec.predicates();
    if !are_for(asked, answers) {
        return Ok(None);
    }
    let mut verdicts = Vec::new(alloc);
    for i in 0..answers.len() {
        verdicts.push(answer_verdicts(alloc, spec.names(), computation, &asked[i], &answers[i])?)?;
    }
    Ok(Some(verdicts))
}
