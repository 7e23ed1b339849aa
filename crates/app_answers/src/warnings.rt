//! What may be green by accident.
use super::after_end::records_after;
use super::possible::named_count;
use super::session::{Session, name_of, source_of, vars_of};
use app_text::{Source, Text, record_after};
use judge_facts::{has_links, is_set, names_variable};
use pd_spec::NamedPred;

/// The first predicate that names a variable of a process, if one does.
fn first_naming<'a>(
    predicates: &'a [NamedPred],
    process: usize,
    var: usize,
) -> Option<&'a NamedPred> {
    for asked in predicates {
        if names_variable(asked.pred.tree(), process, var) {
            return Some(asked);
        }
    }
    None
}

/// The value of a variable before any event; 0 if there is no such variable.
fn initial_of(session: &Session<'_, '_>, process: usize, var: usize) -> i64 {
    match session.spec.initial_rows().get(process) {
        Some(row) => row.get(var).copied().unwrap_or(0),
        None => 0,
    }
}

/// The name of this variable; it is empty if there is no such variable.
fn var_name(vars: &[String], var: usize) -> &str {
    match vars.get(var) {
        Some(name) => name.as_str(),
        None => "",
    }
}

/// Warns of a variable that a predicate names and no event sets.
fn warn_unset(
    out: &mut Text,
    session: &Session<'_, '_>,
    asked: &NamedPred,
    process: usize,
    var: usize,
) {
    let names = session.spec.names();
    let value = initial_of(session, process, var);
    out.say("Warning: ");
    out.say_name(&asked.name);
    out.say(" names `");
    out.say(name_of(names, process));
    out.say(".");
    out.say(var_name(vars_of(names, process), var));
    out.say("`, which no event ");
    if let Some(source) = source_of(session.sources, process) {
        out.say("in ");
        out.say_shown(source.name.as_bytes());
        out.say(" ");
    }
    out.say("sets: it stays ");
    out.say_signed(value);
    out.say(". Look whether it is recorded under this name.\n");
}

/// Warns of the variables of a process that predicates name and no event sets.
fn warn_unset_of(out: &mut Text, session: &Session<'_, '_>, process: usize) {
    let Some(trace) = session.traces.get(process) else {
        return;
    };
    for var in 0..vars_of(session.spec.names(), process).len() {
        if !is_set(&trace.events, var) {
            if let Some(asked) = first_naming(session.spec.predicates(), process, var) {
                warn_unset(out, session, asked, process, var);
            }
        }
    }
}

/// Whether a predicate names processes of which no message leads from one to another.
fn is_unlinked(session: &Session<'_, '_>, asked: &NamedPred) -> bool {
    let tree = asked.pred.tree();
    named_count(tree, session.computation.processes()) > 1 && !has_links(session.computation, tree)
}

/// Warns of predicates that name processes of which no message leads from one to another.
fn warn_unlinked(out: &mut Text, session: &Session<'_, '_>) {
    let mut before = "Warning: no message leads between the processes that are named by ";
    let mut is_found = false;
    for asked in session.spec.predicates() {
        if is_unlinked(session, asked) {
            out.say(before);
            out.say_name(&asked.name);
            before = ", ";
            is_found = true;
        }
    }
    out.say(if is_found {
        ". Then nothing orders their events: look whether all messages are recorded.\n"
    } else {
        ""
    });
}

/// Warns of a stream without events.
fn warn_empty(out: &mut Text, session: &Session<'_, '_>, source: &Source<'_>, process: usize) {
    out.say("Warning: process ");
    out.say_name(name_of(session.spec.names(), process));
    out.say(" has no event: ");
    out.say_shown(source.name.as_bytes());
    out.say(" ends after its first line. Look whether the process recorded into another file.\n");
}

/// Warns of lines after the end line of a stream, of which there are this many or more.
fn warn_others(out: &mut Text, source: &Source<'_>, events: u64, others: u64) {
    out.say("Warning: ");
    out.say_shown(source.name.as_bytes());
    out.say(" goes on after its end line");
    if let Some(end) = record_after(source.bytes, events.saturating_add(1)) {
        out.say(", line ");
        out.say_number(end.line);
    }
    out.say(": ");
    out.say_number(others);
    out.say(if others == 1 {
        " line or more isn't judged.\n"
    } else {
        " lines or more aren't judged.\n"
    });
    out.say("Are there two runs in one file? Then give each a file of its own.\n");
}

/// Warns of a stream without events, and of lines after its end line.
fn warn_stream(out: &mut Text, session: &Session<'_, '_>, source: &Source<'_>, process: usize) {
    let Some(trace) = session.traces.get(process) else {
        return;
    };
    let events = trace.events.len() as u64;
    if events == 0 {
        warn_empty(out, session, source, process);
    }
    let others = records_after(source.bytes, events.saturating_add(2));
    if others > 0 {
        warn_others(out, source, events, others);
    }
}

/// Warns of what may make an answer right and of no use: a variable that a predicate names and no event sets, a
/// predicate that names processes between which there are no messages, a stream without events, and lines after an end
/// line.
pub fn warn(out: &mut Text, session: &Session<'_, '_>) {
    for process in 0..session.computation.processes() {
        warn_unset_of(out, session, process);
    }
    warn_unlinked(out, session);
    for process in 0..session.computation.processes() {
        if let Some(source) = source_of(session.sources, process) {
            warn_stream(out, session, &source, process);
        }
    }
}
