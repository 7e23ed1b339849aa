//! Says why a run ends with status 5.
use app_arguments::{FailOn, Kind, Reason};
use app_text::Text;
use pd_report::{Answer, Definitely, Possibly, Report};
use std::alloc::Global;

/// Says a condition as it stands in a list.
fn say_condition(out: &mut Text, reason: &Reason<'_, '_>) {
    if let Some(name) = reason.name {
        out.say_shown(name);
        out.say(":");
    }
    out.say(reason.kind.word());
}

/// Says of a predicate what is unknown.
fn say_unknown(out: &mut Text, answer: &Answer) {
    let is_possible = matches!(answer.possibly, Possibly::Unknown(_));
    let is_definite = matches!(answer.definitely, Definitely::Unknown(_));
    out.say("it is unknown whether ");
    out.say_name(&answer.name);
    out.say(match (is_possible, is_definite) {
        (true, true) => " can happen, and whether it always does.\n",
        (true, false) => " can happen.\n",
        (false, _) => " always happens.\n",
    });
}

/// Says of a predicate what is so.
fn say_known(out: &mut Text, answer: &Answer, what: &str) {
    out.say_name(&answer.name);
    out.say(what);
}

/// Says which condition an answer meets.
fn say_reason(out: &mut Text, reason: &Reason<'_, '_>) {
    out.say("Status 5 for --fail-on ");
    say_condition(out, reason);
    out.say(": ");
    match reason.kind {
        Kind::Possibly => say_known(out, reason.answer, " can happen.\n"),
        Kind::PossiblyNo => say_known(out, reason.answer, " cannot happen.\n"),
        Kind::Definitely => say_known(out, reason.answer, " always happens.\n"),
        Kind::DefinitelyNo => say_known(out, reason.answer, " need not happen.\n"),
        Kind::Unknown => say_unknown(out, reason.answer),
    }
}

/// Says of each condition that a report meets by which answers, one line for each.
pub fn put_reasons(out: &mut Text, alloc: Global, fail_on: &FailOn<'_>, report: &Report) {
    let Some(reasons) = out.take_made(fail_on.reasons(alloc, report)) else {
        return;
    };
    for reason in &reasons {
        say_reason(out, reason);
    }
}
