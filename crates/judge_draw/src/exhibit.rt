//! The evidence that is drawn, and what the picture is called.
ghost use Rattle.judge_draw.specs.Exhibits.{HasGoodEvidence, Shows, ShowsCut, ShowsCutAlone, ShowsDefinitely, ShowsPath, ShowsPossibly, definitely_words, possibly_words, title_text};
ghost use Rattle.judge_draw.specs.Values.{value_texts};
ghost use Rattle.def_judgement.specs.Findings.{IsGoodCut, IsGoodPath};
ghost use Rattle.def_model.specs.Cuts.{IsConsistent};
ghost use Rattle.def_model.specs.Predicates.{state_at, test_of};
ghost use Rattle.out_picture.specs.Pictures.{texts_view};
ghost use Rattle.pd_pred.specs.Views.{predicate_view};
ghost use Rattle.pd_report.specs.Views as views;
ghost use Rattle.pd_spec.specs.Named.{named_view};
ghost use Rattle.std.specs.Prelude.{◌≡◌, ◌++◌, IfOk, OnOk, decimal, length, string_bytes};

use super::values::value_texts;
use judge_check::path_of;
use out_picture::{Evidence, Kind};
use pd_clock::{Computation, Cut};
use pd_evidence::through;
use pd_pred::{Names, Pred};
use pd_report::{Answer, Definitely, Path, Possibly};
use pd_spec::NamedPred;
use std::alloc::{AllocError, Global};

/// What the predicate's variables are worth at a cut.
fn values_at(
    alloc: Global,
    names: &Names,
    computation: &Computation<'_>,
    pred: &Pred,
    cut: &Cut,
) -> Result<Vec<String>, AllocError>
    requires { IsConsistent computation.now.events cut.now }
    ensures { IfOk result (λ values. texts_view values.items ≡ value_texts names.now
        (state_at computation.now.initial computation.now.events cut.now) (predicate_view pred.now)) }
{
    value_texts(alloc, names, pred.tree(), &computation.at(cut))
}

/// A good cut, with what the predicate's variables are worth there, and an observation through it.
fn cut_of(
    alloc: Global,
    names: &Names,
    computation: &Computation<'_>,
    pred: &Pred,
    counts: &[u64],
) -> Result<Evidence, AllocError>
    requires good { IsGoodCut computation.now.events (test_of computation.now (predicate_view pred.now)) counts.now }
    ensures { IfOk result (ShowsCut names.now computation.now (predicate_view pred.now) counts.now) }
{
    let cut = Cut::new(alloc, counts)?;
    let values = values_at(alloc, names, computation, pred, &cut)?;
    let counts = counts.to_vec(alloc)?;
    let found = through(alloc, computation, &cut)?;
    match found {
        Some(path) => Ok(Evidence::Cut {
            counts,
            values,
            path,
        }),
        None => Ok(Evidence::Absent),
    }
}

/// A good observation, whose processes have these names.
fn observation_of(
    alloc: Global,
    names: &Names,
    computation: &Computation<'_>,
    pred: &Pred,
    reported: &Path,
) -> Result<Evidence, AllocError>
    requires good { IsGoodPath names.now computation.now.events (test_of computation.now (predicate_view pred.now))
        reported.now }
    requires one_each { length computation.now.events ≡ length names.now }
    ensures { IfOk result (ShowsPath names.now computation.now (predicate_view pred.now) reported.now) }
{
    names.differ();
    match path_of(alloc, names, reported)? {
        Some(path) => Ok(Evidence::Observation(path)),
        None => Ok(Evidence::Absent),
    }
}

/// The observation of a *definitely no*, if it is one.
fn definitely_evidence(
    alloc: Global,
    names: &Names,
    computation: &Computation<'_>,
    asked: &NamedPred,
    answer: &Answer,
) -> Result<Evidence, AllocError>
    requires good { HasGoodEvidence names.now computation.now (named_view asked.now).predicate
        (views.answer_view answer.now) }
    requires one_each { length computation.now.events ≡ length names.now }
    ensures { IfOk result (ShowsDefinitely names.now computation.now (named_view asked.now).predicate
        (views.definitely_view answer.now.definitely)) }
{
    match &answer.definitely {
        Definitely::No(reported) => {
            observation_of(alloc, names, computation, &asked.pred, reported)
        }
        Definitely::Yes(_) | Definitely::Unknown(_) => Ok(Evidence::Absent),
    }
}

/// The cut of a *possibly yes*, if it is one.
fn possibly_evidence(
    alloc: Global,
    names: &Names,
    computation: &Computation<'_>,
    asked: &NamedPred,
    answer: &Answer,
) -> Result<Evidence, AllocError>
    requires good { HasGoodEvidence names.now computation.now (named_view asked.now).predicate
        (views.answer_view answer.now) }
    ensures { IfOk result (ShowsCutAlone names.now computation.now (named_view asked.now).predicate
        (views.possibly_view answer.now.possibly)) }
{
    match &answer.possibly {
        Possibly::Yes(counts) => cut_of(alloc, names, computation, &asked.pred, counts),
        Possibly::No | Possibly::Unknown(_) => Ok(Evidence::Absent),
    }
}

/// The cut of a *possibly yes*, else the observation of a *definitely no*, else nothing.
fn any_evidence(
    alloc: Global,
    names: &Names,
    computation: &Computation<'_>,
    asked: &NamedPred,
    answer: &Answer,
) -> Result<Evidence, AllocError>
    requires good { HasGoodEvidence names.now computation.now (named_view asked.now).predicate
        (views.answer_view answer.now) }
    requires one_each { length computation.now.events ≡ length names.now }
    ensures { IfOk result (ShowsPossibly names.now computation.now (named_view asked.now).predicate
        (views.possibly_view answer.now.possibly) (views.definitely_view answer.now.definitely)) }
{
    match &answer.possibly {
        Possibly::Yes(counts) => cut_of(alloc, names, computation, &asked.pred, counts),
        Possibly::No | Possibly::Unknown(_) => {
            definitely_evidence(alloc, names, computation, asked, answer)
        }
    }
}

/// The evidence of an answer that the check found good: its cut, else its observation, else none; if evidence of one
/// kind is asked for, that or none.
///
/// # Errors
/// Out of memory.
pub(crate) fn evidence_of(
    alloc: Global,
    kind: Option<Kind>,
    names: &Names,
    computation: &Computation<'_>,
    asked: &NamedPred,
    answer: &Answer,
) -> Result<Evidence, AllocError>
    requires good { HasGoodEvidence names.now computation.now (named_view asked.now).predicate
        (views.answer_view answer.now) }
    requires one_each { length computation.now.events ≡ length names.now }
    ensures { IfOk result (Shows kind names.now computation.now (named_view asked.now).predicate
        (views.answer_view answer.now)) }
{
    match kind {
        None => any_evidence(alloc, names, computation, asked, answer),
        Some(kind) => match kind {
            Kind::Possibly => possibly_evidence(alloc, names, computation, asked, answer),
            Kind::Definitely => definitely_evidence(alloc, names, computation, asked, answer),
        },
    }
}

/// Appends words and the number of a level.
fn push_level(alloc: Global, text: &mut String, words: &str, level: u64) -> Result<(), AllocError>
    ensures { OnOk result (string_bytes text.new ≡ string_bytes text.old ++ (words.now ++ decimal level)) }
{
    let digits = format!(in alloc; "{level}")?;
    text.push_str(words)?;
    text.push_str(&digits)
}

/// Appends what the report says of *possibly*, but for the cut.
fn push_possibly(alloc: Global, text: &mut String, possibly: &Possibly) -> Result<(), AllocError>
    ensures { OnOk result (string_bytes text.new
        ≡ string_bytes text.old ++ possibly_words (views.possibly_view possibly.now)) }
{
    match possibly {
        Possibly::Yes(_) => text.push_str(" possibly yes"),
        Possibly::No => text.push_str(" possibly no"),
        Possibly::Unknown(level) => push_level(alloc, text, " possibly unknown ", *level),
    }
}

/// Appends what the report says of *definitely*, but for the path.
fn push_definitely(
    alloc: Global,
    text: &mut String,
    definitely: &Definitely,
) -> Result<(), AllocError>
    ensures { OnOk result (string_bytes text.new
        ≡ string_bytes text.old ++ definitely_words (views.definitely_view definitely.now)) }
{
    match definitely {
        Definitely::Yes(level) => push_level(alloc, text, ", definitely yes ", *level),
        Definitely::No(_) => text.push_str(", definitely no"),
        Definitely::Unknown(level) => push_level(alloc, text, ", definitely unknown ", *level),
    }
}

/// What the picture of a predicate of this name and with this answer is called.
///
/// # Errors
/// Out of memory.
pub(crate) fn title_of(alloc: Global, name: &str, answer: &Answer) -> Result<String, AllocError>
    ensures { IfOk result (λ title. string_bytes title ≡ title_text name.now
        (views.answer_view answer.now).possibly (views.answer_view answer.now).definitely) }
{
    let mut title = String::from_str(alloc, name)?;
    push_possibly(alloc, &mut title, &answer.possibly)?;
    push_definitely(alloc, &mut title, &answer.definitely)?;
    Ok(title)
}
