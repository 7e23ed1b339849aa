//! What is said of each answer that is known.
ghost use Rattle.app_answers.specs.Sessions.{IsJudged};

use super::lifted::{is_never, lifted_of};
use super::possible::{named_count, say_possible};
use super::session::Session;
use super::undecided::{say_bundle, say_undecided};
use super::why_not::say_why_not;
use app_text::Text;
use judge_facts::first_run;
use judge_lifted::LiftedAnswer;
use pd_pred::Pred;
use pd_report::{Answer, Definitely, Path, Possibly};
use pd_spec::NamedPred;
use std::alloc::Global;
use std::random::RandomSource;
use std::sync::Wait;
use std::thread::Threads;

/// The most runs of steps by which an observation is said.
const RUNS: u64 = 4;

/// The steps without the first ones that are equal to each other.
fn after_run(steps: &[usize]) -> &[usize] {
    steps.get(first_run(steps)..).unwrap_or(&[])
}

/// How many runs of equal steps there are: of more than `RUNS` one more than that.
fn runs_in(steps: &[usize]) -> u64 {
    let mut rest = steps;
    for count in 0..RUNS {
        if rest.is_empty() {
            return count;
        }
        rest = after_run(rest);
    }
    if rest.is_empty() {
        RUNS
    } else {
        RUNS.saturating_add(1)
    }
}

/// Says the first run of steps: how many events of which process.
fn say_run(out: &mut Text, names: &[String], steps: &[usize]) {
    let Some(name) = steps.first().and_then(|step| names.get(*step)) else {
        return;
    };
    let count = first_run(steps) as u64;
    out.say_number(count);
    out.say(if count == 1 {
        " event of "
    } else {
        " events of "
    });
    out.say_name(name);
}

/// Says an observation by its runs of steps, if they are few.
fn say_path(out: &mut Text, path: &Path) {
    let (names, steps) = path.parts();
    if steps.is_empty() || runs_in(steps) > RUNS {
        return;
    }
    let mut before = "One such order: ";
    let mut rest = steps;
    for _run in 0..RUNS {
        if rest.is_empty() {
            out.say(".\n");
            return;
        }
        out.say(before);
        say_run(out, names, rest);
        rest = after_run(rest);
        before = ", then ";
    }
    out.say(".\n");
}

/// Says that a predicate can't be true, and why.
fn say_impossible<R: RandomSource>(
    out: &mut Text,
    rt: &R,
    alloc: Global,
    session: &Session<'_, '_>,
    name: &str,
    pred: &Pred,
)
    requires { IsJudged session.now }
{
    out.say_name(name);
    if named_count(pred.tree(), session.computation.processes()) == 0 {
        out.say(" cannot happen: it names no variable, and is false.\n");
        return;
    }
    say_why_not(out, rt, alloc, session, pred);
}

/// Says that a predicate is true in each order, at the latest at this level.
fn say_always(out: &mut Text, name: &str, level: u64) {
    out.say_name(name);
    if level == 0 {
        out.say(" always happens: it is true before the first event.\n");
        return;
    }
    out.say(" always happens, in every order that fits the messages:\nat the latest after ");
    out.say_number(level);
    out.say(if level == 1 {
        " event.\n"
    } else {
        " events.\n"
    });
}

/// Says that a predicate need not be true at any time.
fn say_avoidable(out: &mut Text, name: &str, path: &Path) {
    out.say_name(name);
    out.say(" need not happen: in some order that fits the messages it never does.\n");
    say_path(out, path);
}

/// Says what a known answer means. That what can't happen need not isn't said, also if it is the reduction of the run
/// by which it can't.
fn say_answer<R: RandomSource>(
    out: &mut Text,
    rt: &R,
    alloc: Global,
    session: &Session<'_, '_>,
    asked: &NamedPred,
    answer: &Answer,
    lifted: Option<&LiftedAnswer>,
)
    requires { IsJudged session.now }
{
    let (name, tree) = (answer.name.as_str(), asked.pred.tree());
    match &answer.possibly {
        Possibly::Yes(counts) => say_possible(out, alloc, session, name, tree, counts),
        Possibly::No => {
            say_impossible(out, rt, alloc, session, name, &asked.pred);
            return;
        }
        Possibly::Unknown(_) => {
            if is_never(lifted) {
                return;
            }
        }
    }
    match &answer.definitely {
        Definitely::Yes(level) => say_always(out, name, *level),
        Definitely::No(path) => say_avoidable(out, name, path),
        Definitely::Unknown(_) => (),
    }
}

/// Explains each answer that is known: that the predicate can happen, where and why, that it can't, that it always
/// does, or that it need not; and says of each one that is unknown what would decide it at any width. The answers are
/// those for the predicates of the document, in its order.
///
/// If one is unknown that was asked beyond the width, the reduction of the run is judged, once for all: what that
/// decides is explained in place of what would decide it.
pub fn explain_known<R: RandomSource + Threads + Wait + Sync>(
    out: &mut Text,
    rt: &R,
    alloc: Global,
    session: &Session<'_, '_>,
    answers: &[Answer],
)
    requires { IsJudged session.now }
{
    let predicates = session.spec.predicates();
    let lifted = lifted_of(out, rt, alloc, session, answers);
    let mut is_undecided = false;
    for (place, answer) in answers.iter().enumerate() {
        if let Some(asked) = predicates.get(place) {
            let tree = asked.pred.tree();
            say_answer(out, rt, alloc, session, asked, answer, lifted.get(place));
            let said = say_undecided(out, alloc, session, tree, answer, lifted.get(place));
            is_undecided = is_undecided || said;
        }
    }
    say_bundle(out, session, is_undecided);
}
