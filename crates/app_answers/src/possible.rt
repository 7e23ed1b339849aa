//! Says what can happen, where and why.
use super::places::{say_deed, say_next, say_place};
use super::session::{Session, name_of, vars_of};
use app_text::Text;
use judge_facts::{named_values, names_process};
use pd_clock::{Cut, Place, State};
use pd_pred::Tree;
use std::alloc::Global;

/// How many processes a predicate names, of this many.
pub(crate) fn named_count(tree: &Tree, processes: usize) -> u64 {
    let mut count = 0u64;
    for p in 0..processes {
        if names_process(tree, p) {
            count = count.saturating_add(1);
        }
    }
    count
}

/// Says what the variables of a process are worth that a predicate names.
fn say_values(
    out: &mut Text,
    alloc: Global,
    session: &Session<'_, '_>,
    tree: &Tree,
    state: &State<'_>,
    process: usize,
) {
    let vars = vars_of(session.spec.names(), process);
    let Some(values) = out.take_made(named_values(alloc, tree, state, process, vars.len())) else {
        return;
    };
    let mut before = ": ";
    for (var, value) in &values {
        if let Some(name) = vars.get(*var) {
            out.say(before);
            out.say(name);
            out.say("=");
            out.say_signed(*value);
            before = ", ";
        }
    }
}

/// Says how far a process is at a cut: which event is its last one, where it was recorded, and what it did.
fn say_last(out: &mut Text, session: &Session<'_, '_>, place: Place) {
    out.say("Process ");
    out.say_name(name_of(session.spec.names(), place.process));
    if place.number == 0 {
        out.say(" before its first event");
        return;
    }
    out.say(" after event ");
    out.say_number(place.number);
    say_place(out, session, place);
    out.say(", which ");
    say_deed(out, session, place);
}

/// Says of each process that a predicate names how far it is at a cut, and what its variables are worth.
fn say_processes(
    out: &mut Text,
    alloc: Global,
    session: &Session<'_, '_>,
    tree: &Tree,
    state: &State<'_>,
    counts: &[u64],
) {
    for (process, number) in counts.iter().enumerate() {
        if names_process(tree, process) {
            let number = *number;
            say_last(out, session, Place { process, number });
            say_values(out, alloc, session, tree, state, process);
            out.say(".\n");
        }
    }
}

/// Says why no message prevents a cut: what each process does next that a predicate names.
fn say_why(out: &mut Text, session: &Session<'_, '_>, tree: &Tree, counts: &[u64]) {
    out.say("No message prevents it: each can come this far before another goes on.\n");
    let mut before = "Next: ";
    for (process, number) in counts.iter().enumerate() {
        if names_process(tree, process) {
            let number = number.saturating_add(1);
            out.say(before);
            say_next(out, session, counts, Place { process, number });
            before = ", ";
        }
    }
    out.say(".\n");
}

/// Says that a predicate can be true, and of a cut at which it is how far each process is that it names.
pub(crate) fn say_possible(
    out: &mut Text,
    alloc: Global,
    session: &Session<'_, '_>,
    name: &str,
    tree: &Tree,
    counts: &[u64],
) {
    out.say_name(name);
    let named = named_count(tree, counts.len());
    if named == 0 {
        out.say(" can happen: it names no variable, and is true.\n");
        return;
    }
    let Some(cut) = out.take_made(Cut::new(alloc, counts)) else {
        return;
    };
    if !session.computation.fits(&cut) {
        out.say(" can happen.\n");
        return;
    }
    out.say(" can happen, when these processes have come this far:\n");
    let state = session.computation.at(&cut);
    say_processes(out, alloc, session, tree, &state, counts);
    if named > 1 {
        say_why(out, session, tree, counts);
        return;
    }
}
