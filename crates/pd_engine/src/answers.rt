//! The answers of a session.
ghost use Rattle.pd_engine.specs.Paths.{HasProcessesBelow};
ghost use Rattle.def_format.specs.Names.{name_of_process};
ghost use Rattle.def_judgement.specs.Judgements.{AnswersDefinitely, AnswersPossibly, IsAnswered, printed_definitely, printed_possibly};
ghost use Rattle.walk_back.specs.Answers.{definitely_answer_view, possibly_answer_view};
ghost use Rattle.pd_pred.specs.Views.{predicate_view};
ghost use Rattle.pd_report.specs.Steps.{names_view};
ghost use Rattle.pd_report.specs.Views as views;
ghost use Rattle.pd_spec.specs.Named.{named_view};
ghost use Rattle.pd_spec.specs.Views.{document_view};
ghost use Rattle.std.specs.List.{AllZip};
ghost use Rattle.std.specs.Prelude.{◌≡◌, ◌<◌, All, IfOk, length, map, string_bytes};

use super::early::{all_early, announce};
use super::late::{late_definitely, late_possibly, latest};
use pd_clock::Computation;
use pd_expand::Crew;
use pd_level::Gate;
use pd_pred::Names;
use pd_report::{Answer, Definitely, Path, Possibly};
use pd_spec::{NamedPred, Spec};
use std::alloc::{AllocError, Global};
use std::sync::Wait;
use std::thread::Threads;
use walk::answer_all;
use walk_back::{DefinitelyAnswer, PossiblyAnswer};

/// The answer for each predicate: those that are final whatever the levels are, if the document asks for them, and the
/// others by one walk, whose lists of cuts the workers share. Where the walk leaves Possibly unknown and sums decide
/// it, the first satisfying cut by height is the answer, if the document asks for that; where it leaves Definitely
/// unknown, yes is, if a gate or the end of the search back told it.
///
/// # Errors
/// Out of memory.
pub fn answers_of<S: Threads + Wait + Sync, G: Gate + Sync>(
    crew: &Crew<'_, '_, S, G>,
    alloc: Global,
    spec: &Spec,
    computation: &Computation<'_>,
) -> Result<Vec<Answer>, AllocError>
    requires names { length computation.now.events ≡ length (document_view spec.now).names }
    ensures { IfOk result (λ answers. AllZip (IsAnswered (document_view spec.now) computation.now)
        (document_view spec.now).predicates (map views.answer_view answers.items)) }
{
    let asked = spec.predicates();
    let early = all_early(crew, alloc, spec, computation, asked)?;
    let found = answer_all(crew, alloc, computation, &early.left, spec.width())?;
    let mut answers = Vec::new(alloc);
    for i in 0..asked.len() {
        let named = &asked[i];
        let known = &early.each[i];
        let possibly = known.possibly(&found);
        let definitely = known.definitely(&found);
        announce_again(crew, spec, i, possibly);
        let late = late_possibly(
            alloc,
            spec,
            computation,
            &named.pred,
            known.by_height,
            possibly,
        )?;
        let passed = late_definitely(spec, computation, &named.pred, known.late, definitely);
        let possibly = latest(&late, possibly);
        let definitely = latest(&passed, definitely);
        answers.push(answer(alloc, spec, named, computation, possibly, definitely)?)?;
    }
    Ok(answers)
}

/// Says at the gate that the predicate at this place, counted from 0, is answered beyond the width once more, if the
/// walk leaves Possibly unknown and the document asks for that.
fn announce_again<S: Threads + Wait + Sync, G: Gate + Sync>(
    crew: &Crew<'_, '_, S, G>,
    spec: &Spec,
    place: usize,
    taken: &PossiblyAnswer,
) {
    match taken {
        PossiblyAnswer::Unknown(_) => announce(crew, spec, place),
        PossiblyAnswer::Yes(_) | PossiblyAnswer::No => {}
    }
}

/// The answer for one predicate as a report gives it.
fn answer(
    alloc: Global,
    spec: &Spec,
    asked: &NamedPred,
    _computation: &Computation<'_>,
    possibly: &PossiblyAnswer,
    definitely: &DefinitelyAnswer,
) -> Result<Answer, AllocError>
    requires names { length _computation.now.events ≡ length (document_view spec.now).names }
    requires possibly { AnswersPossibly (document_view spec.now) _computation.now (predicate_view asked.now.pred)
        (possibly_answer_view possibly.now) }
    requires definitely { AnswersDefinitely (document_view spec.now) _computation.now (predicate_view asked.now.pred)
        (definitely_answer_view definitely.now) }
    ensures { IfOk result (λ answer. IsAnswered (document_view spec.now) _computation.now (named_view asked.now)
        (views.answer_view answer)) }
{
    Ok(Answer {
        name: asked.name.clone()?,
        possibly: possibly_for_report(alloc, possibly)?,
        definitely: definitely_for_report(alloc, spec.names(), definitely)?,
    })
}

/// The answer as a report gives it.
fn possibly_for_report(alloc: Global, answer: &PossiblyAnswer) -> Result<Possibly, AllocError>
    ensures { IfOk result (λ possibly. views.possibly_view possibly
        ≡ printed_possibly (possibly_answer_view answer.now)) }
{
    match answer {
        PossiblyAnswer::Yes(cut) => Ok(Possibly::Yes(cut.counts().to_vec(alloc)?)),
        PossiblyAnswer::No => Ok(Possibly::No),
        PossiblyAnswer::Unknown(level) => Ok(Possibly::Unknown(*level)),
    }
}

/// The name of a process, which is counted from 0.
fn name_of(alloc: Global, names: &Names, p: usize) -> Result<String, AllocError>
    requires { p < length names.now }
    ensures { IfOk result (λ name. string_bytes name ≡ name_of_process names.now p) }
{
    String::from_str(alloc, names.name(p))
}

/// The names of the processes, in order.
fn all_names(alloc: Global, names: &Names) -> Result<Vec<String>, AllocError>
    ensures { IfOk result (λ all. names_view all.items ≡ map (λ process. process.name) names.now) }
{
    let mut all = Vec::with_capacity(alloc, names.processes())?;
    for p in 0..names.processes() {
        all.push(name_of(alloc, names, p)?)?;
    }
    Ok(all)
}

/// The path of these processes, which are counted from 0.
fn path_of(alloc: Global, names: &Names, processes: &[usize]) -> Result<Path, AllocError>
    requires { All (λ p. p < length names.now) processes.now }
    ensures { IfOk result (λ path. path ≡ map (name_of_process names.now) processes.now) }
{
    let all = all_names(alloc, names)?;
    let steps = processes.to_vec(alloc)?;
    Ok(Path::new(all, steps))
}

/// The answer as a report gives it, with an observation by the names of its processes.
fn definitely_for_report(
    alloc: Global,
    names: &Names,
    answer: &DefinitelyAnswer,
) -> Result<Definitely, AllocError>
    requires { HasProcessesBelow (length names.now) answer.now }
    ensures { IfOk result (λ definitely. views.definitely_view definitely
        ≡ printed_definitely names.now (definitely_answer_view answer.now)) }
{
    match answer {
        DefinitelyAnswer::Yes(level) => Ok(Definitely::Yes(*level)),
        DefinitelyAnswer::No(path) => Ok(Definitely::No(path_of(alloc, names, path)?)),
        DefinitelyAnswer::Unknown(level) => Ok(Definitely::Unknown(*level)),
    }
}
