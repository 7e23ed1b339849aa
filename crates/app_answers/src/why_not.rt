//! Says why a predicate can't be true.
ghost use Rattle.app_answers.specs.Sessions.{IsJudged};

use super::places::say_place;
use super::possible::named_count;
use super::session::{Session, name_of, vars_of};
use app_text::Text;
use def_format::Version;
use judge_causes::{Asked, Causes, causes_of, own_orders};
use judge_facts::{kind_at, names_process, names_variable};
use pd_clock::Place;
use pd_pred::{Pred, Tree};
use read_traces::Kind;
use std::alloc::Global;
use std::random::RandomSource;

/// The most messages that are named.
const SHOWN: usize = 6;
/// As many events are looked at in all trials together, and there are at least so many trials.
const LOOKED_AT: u64 = 6_000_000;

const LEAST: u64 = 8;
/// So many comparisons take as long as all else of a trial, and so many pairs of counts as long as an event.
const COMPARISONS: u64 = 16;

const PAIRS: u64 = 64;

/// How many comparisons a predicate has.
fn comparisons(tree: &Tree) -> u64 {
    match tree {
        Tree::Always | Tree::Never | Tree::Compare { .. } => 1,
        Tree::Not(inner) => comparisons(inner),
        Tree::And(left, right) | Tree::Or(left, right) => {
            comparisons(left).saturating_add(comparisons(right))
        }
    }
}

/// Whether some comparison names several of this many processes.
fn mixes(tree: &Tree, processes: usize) -> bool {
    match tree {
        Tree::Always | Tree::Never => false,
        Tree::Compare { .. } => named_count(tree, processes) > 1,
        Tree::Not(inner) => mixes(inner, processes),
        Tree::And(left, right) | Tree::Or(left, right) => {
            mixes(left, processes) || mixes(right, processes)
        }
    }
}

/// How many pairs of counts there are, if a predicate is asked by those of two processes.
fn pairs_of(session: &Session<'_, '_>, tree: &Tree) -> u64 {
    let processes = session.computation.processes();
    if named_count(tree, processes) != 2 || !mixes(tree, processes) {
        return 0;
    }
    let mut pairs = 1u64;
    for process in 0..processes {
        if names_process(tree, process) {
            pairs = pairs.saturating_mul(session.computation.events(process));
        }
    }
    pairs
}

/// How many trials there may be, by what one takes.
fn trials_for(session: &Session<'_, '_>, tree: &Tree) -> u64 {
    let events = session.computation.total();
    let more = comparisons(tree).checked_div(COMPARISONS).unwrap_or(0);
    let pairs = pairs_of(session, tree).checked_div(PAIRS).unwrap_or(0);
    let cost = events
        .saturating_mul(more.saturating_add(1))
        .saturating_add(pairs);
    let trials = LOOKED_AT.checked_div(cost).unwrap_or(LOOKED_AT);
    if trials < LEAST { LEAST } else { trials }
}

/// Says which of the processes a predicate names.
fn say_named(out: &mut Text, session: &Session<'_, '_>, tree: &Tree) {
    let mut before = "";
    for process in 0..session.computation.processes() {
        if names_process(tree, process) {
            out.say(before);
            out.say_name(name_of(session.spec.names(), process));
            before = ", ";
        }
    }
}

/// Whether a predicate names several variables of one process: then it matters in which order that had its states.
fn names_several(session: &Session<'_, '_>, tree: &Tree) -> bool {
    for process in 0..session.computation.processes() {
        let mut named = 0u64;
        for var in 0..vars_of(session.spec.names(), process).len() {
            if names_variable(tree, process, var) {
                named = named.saturating_add(1);
            }
        }
        if named > 1 {
            return true;
        }
    }
    false
}

/// Says that no states satisfy a predicate, whatever the messages are.
fn say_stateless(out: &mut Text, session: &Session<'_, '_>, tree: &Tree) {
    out.say(" cannot happen, whatever the messages are: it is false for all values that ");
    say_named(out, session, tree);
    let is_one = named_count(tree, session.computation.processes()) == 1;
    out.say(if is_one { " has" } else { " have" });
    out.say(" at any time.\n");
    if !names_several(session, tree) {
        return;
    }
    out.say("If one of these ran several tasks side by side, record each as a process.\n");
}

/// Says which event stands at a place, and where it was recorded.
fn say_event(out: &mut Text, session: &Session<'_, '_>, place: Place, article: &str) {
    out.say(article);
    out.say_number(place.number);
    out.say(" of ");
    out.say_name(name_of(session.spec.names(), place.process));
    say_place(out, session, place);
}

/// Says who sends a message that is received at this place.
fn say_message(out: &mut Text, session: &Session<'_, '_>, receipt: Place) {
    if !session.computation.has(receipt) {
        return;
    }
    let Some(send) = session.computation.sender(receipt) else {
        return;
    };
    say_event(out, session, send, "Event ");
    out.say(" sends ");
    if let Some(Kind::Recv(id)) = kind_at(session.traces, receipt) {
        out.say("`");
        out.say_shown(id);
        out.say("`");
    }
    say_event(out, session, receipt, ", which event ");
    out.say(" receives.\n");
}

/// What prevents a predicate, one of them or several: in version 2 several processes may receive one message.
fn preventing(version: Version, count: u64) -> &'static str {
    match version {
        Version::One => {
            if count == 1 {
                " message prevents it"
            } else {
                " messages prevent it"
            }
        }
        Version::Two => {
            if count == 1 {
                " receipt of a message prevents it"
            } else {
                " receipts of messages prevent it"
            }
        }
    }
}

/// Says how many messages prevent a predicate.
fn say_count(out: &mut Text, version: Version, causes: &Causes) {
    let count = causes.receipts.len() as u64;
    out.say(" cannot happen: ");
    out.say_number(count);
    out.say(preventing(version, count));
    out.say(if causes.are_needed {
        ", whatever else happens.\n"
    } else {
        ", whatever else happens; fewer may be enough.\n"
    });
}

/// Says which receipts come before which sends by the order of one process alone, each once.
fn say_own_orders(out: &mut Text, session: &Session<'_, '_>, pairs: &[(Place, Place)]) {
    for (place, (receipt, send)) in pairs.iter().enumerate() {
        let earlier = pairs.get(..place).unwrap_or(&[]);
        if !earlier.contains(&(*receipt, *send)) {
            out.say("The order of ");
            out.say_name(name_of(session.spec.names(), send.process));
            out.say(" alone puts its event ");
            out.say_number(receipt.number);
            out.say(" before its event ");
            out.say_number(send.number);
            out.say(".\n");
        }
    }
    if pairs.is_empty() {
        return;
    }
    out.say("If it ran several tasks side by side, record each as a process.\n");
}

/// Says which messages prevent a predicate, the first ones if they are many.
fn say_messages(out: &mut Text, alloc: Global, session: &Session<'_, '_>, causes: &Causes) {
    let count = causes.receipts.len();
    say_count(out, session.spec.version(), causes);
    if count > SHOWN {
        out.say("The first of them are these:\n");
    }
    let shown = causes.receipts.get(..SHOWN).unwrap_or(&causes.receipts);
    for receipt in shown {
        say_message(out, session, *receipt);
    }
    if causes.are_needed && count > 1 {
        out.say("Each of them is needed: the others alone do not prevent it.\n");
    }
    if count > SHOWN {
        return;
    }
    let Some(pairs) = out.take_made(own_orders(alloc, session.computation, shown)) else {
        return;
    };
    say_own_orders(out, session, &pairs);
}

/// Says no more than that a predicate can't be true.
fn say_false(out: &mut Text) {
    out.say(" cannot happen: it is false in every global state that fits the messages.\n");
}

/// Says why a predicate can't be true, after its name.
pub(crate) fn say_why_not<R: RandomSource>(
    out: &mut Text,
    rt: &R,
    alloc: Global,
    session: &Session<'_, '_>,
    pred: &Pred,
)
    requires { IsJudged session.now }
{
    let asked = Asked {
        spec: session.spec,
        traces: session.traces,
        pred,
    };
    let trials = trials_for(session, pred.tree());
    let Some(found) = out.take_made(causes_of(rt, alloc, &asked, session.computation, trials))
    else {
        return;
    };
    let Some(causes) = found else {
        say_false(out);
        return;
    };
    if causes.receipts.is_empty() {
        say_stateless(out, session, pred.tree());
        return;
    }
    if !causes.are_needed && causes.receipts.len() > SHOWN {
        say_false(out);
        return;
    }
    say_messages(out, alloc, session, &causes);
}
