//! Says what the reduction of a run decides of what the report leaves unknown.
//!
//! A reduction is the run of the events alone that set a variable which predicates name to another value. It has the
//! run's answers.
ghost use Rattle.app_answers.specs.Sessions.{IsJudged};

use super::possible::say_possible;
use super::session::Session;
use app_text::Text;
use judge_lifted::{LiftedAnswer, Reached, lifted_answers};
use pd_engine::{Crew, NoGate};
use pd_pred::Tree;
use pd_report::{Answer, Definitely, Possibly};
use std::alloc::Global;
use std::random::RandomSource;
use std::sync::Wait;
use std::thread::Threads;

/// What of an answer is unknown.
#[derive(Clone, Copy, PartialEq, Eq)]
pub(crate) struct Unknown {
    /// Whether it is unknown if the predicate possibly holds.
    pub(crate) possibly: bool,
    /// Whether it is unknown if it definitely holds.
    pub(crate) definitely: bool,
}

impl Unknown {
    /// Whether something is unknown.
    pub(crate) fn is_some(self) -> bool {
        self.possibly || self.definitely
    }
}

/// What is unknown of an answer in the report.
pub(crate) fn unknown_of(answer: &Answer) -> Unknown {
    let possibly = match &answer.possibly {
        Possibly::Unknown(_) => true,
        Possibly::Yes(_) | Possibly::No => false,
    };
    let definitely = match &answer.definitely {
        Definitely::Unknown(_) => true,
        Definitely::Yes(_) | Definitely::No(_) => false,
    };
    Unknown {
        possibly,
        definitely,
    }
}

/// Whether something is unknown of one of these answers.
fn is_any_unknown(answers: &[Answer]) -> bool {
    for answer in answers {
        if unknown_of(answer).is_some() {
            return true;
        }
    }
    false
}

/// What the reduction of the session's run says of each predicate, in their order, if one of these answers is unknown
/// and was asked beyond the width. It is empty if not, or if the reduction says nothing.
pub(crate) fn lifted_of<R: RandomSource + Threads + Wait + Sync>(
    out: &mut Text,
    rt: &R,
    alloc: Global,
    session: &Session<'_, '_>,
    answers: &[Answer],
) -> Vec<LiftedAnswer>
    requires { IsJudged session.now }
{
    if !session.spec.beyond_width() || !is_any_unknown(answers) {
        return Vec::new(alloc);
    }
    let crew = Crew::new(rt, 1, &NoGate);
    let made = lifted_answers(&crew, alloc, session.spec, session.computation);
    match out.take_made(made) {
        Some(Some(lifted)) => lifted,
        Some(None) | None => Vec::new(alloc),
    }
}

/// Whether it is known that the reduction says that a predicate can't happen.
pub(crate) fn is_never(lifted: Option<&LiftedAnswer>) -> bool {
    let Some(answer) = lifted else {
        return false;
    };
    match &answer.possibly {
        Reached::Never => true,
        Reached::At(_) | Reached::Unknown => false,
    }
}

/// What is left unknown once it is known what the reduction says. What can't happen need not.
fn left_by(unknown: Unknown, lifted: &LiftedAnswer) -> Unknown {
    match &lifted.possibly {
        Reached::Never => Unknown {
            possibly: false,
            definitely: false,
        },
        Reached::At(_) => Unknown {
            possibly: false,
            definitely: unknown.definitely && lifted.definitely.is_none(),
        },
        Reached::Unknown => Unknown {
            possibly: unknown.possibly,
            definitely: unknown.definitely && lifted.definitely.is_none(),
        },
    }
}

/// Says what the reduction says of Definitely.
fn say_definitely(out: &mut Text, name: &str, definitely: Option<bool>) {
    let Some(holds) = definitely else {
        return;
    };
    out.say_name(name);
    out.say(if holds {
        " always happens, in every order that fits the messages.\n"
    } else {
        " need not happen: in some order that fits the messages it never does.\n"
    });
}

/// Says what the reduction says of what is unknown. That what can't happen need not isn't said.
fn say_decided(
    out: &mut Text,
    alloc: Global,
    session: &Session<'_, '_>,
    name: &str,
    tree: &Tree,
    unknown: Unknown,
    lifted: &LiftedAnswer,
) {
    match &lifted.possibly {
        Reached::At(counts) => {
            if unknown.possibly {
                say_possible(out, alloc, session, name, tree, counts);
            }
        }
        Reached::Never => {
            out.say_name(name);
            out.say(" cannot happen: it is false in every global state that fits the messages.\n");
            return;
        }
        Reached::Unknown => {}
    }
    if unknown.definitely {
        say_definitely(out, name, lifted.definitely);
    }
}

/// Says what the reduction decides of what is unknown of a predicate, if it decides any. It gives what is left unknown.
pub(crate) fn say_lifted(
    out: &mut Text,
    alloc: Global,
    session: &Session<'_, '_>,
    name: &str,
    tree: &Tree,
    unknown: Unknown,
    lifted: &LiftedAnswer,
) -> Unknown {
    let left = left_by(unknown, lifted);
    if left == unknown {
        return unknown;
    }
    out.say_name(name);
    out.say(
        " is unknown in the report, but decided by the events alone that change a variable of a predicate:\n",
    );
    say_decided(out, alloc, session, name, tree, unknown, lifted);
    left
}
