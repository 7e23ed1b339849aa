//! Explains what is bad in what a check finds.
use super::known_names::name_at;
use super::messages::EventName;
use super::noted::{NotedEvents, put_noted_event};
use app_text::{Source, Text, cut_line, line_at};

/// In which ways the evidence of a report may be bad: the cut for a *possibly yes*, or the path for a *definitely no*.
fn reason(is_cut: bool) -> &'static str {
    if is_cut {
        return ": either the cut has a receipt without its send, or more events than there are, or the predicate is \
false after these events.\n";
    }
    ": either the path takes an event that can't come yet or doesn't take all, or the predicate holds somewhere on \
it.\n"
}

/// The number of the first line that begins with these two texts, counted from 1.
fn line_with(bytes: &[u8], first: &[u8], second: &[u8]) -> Option<u64> {
    let mut rest = bytes;
    let mut number = 1u64;
    for _line in 0..bytes.len() {
        let (line, after) = cut_line(rest);
        if line.starts_with(first) {
            if let Some(end) = line.get(first.len()..) {
                if end.starts_with(second) {
                    return Some(number);
                }
            }
        }
        rest = after?;
        number = number.saturating_add(1);
    }
    None
}

/// The bytes before this end, if they have it.
fn without_end<'a>(line: &'a [u8], end: &[u8]) -> Option<&'a [u8]> {
    if line.ends_with(end) {
        return line.get(..line.len().saturating_sub(end.len()));
    }
    None
}

/// Says what was noted of the last event of each process at a cut, which has this text, as `2,1`.
fn say_cut(out: &mut Text, events: NotedEvents<'_>, cut: &[u8]) {
    for (place, text) in cut.split(|byte| *byte == b',').enumerate() {
        if let Some(number) = number_after(text, b"") {
            let process = name_at(events.names, place);
            put_noted_event(out, events.notes, EventName { process, number });
        }
    }
}

/// Explains that the evidence for an answer about a predicate is bad, and shows it.
fn say_evidence(
    out: &mut Text,
    report: &Source<'_>,
    name: &[u8],
    is_cut: bool,
    events: Option<NotedEvents<'_>>,
) {
    let question: &[u8] = if is_cut {
        b" possibly "
    } else {
        b" definitely "
    };
    out.say("What the report gives as evidence of `");
    out.say_shown(name);
    out.say("` is none");
    out.say(reason(is_cut));
    match line_with(report.bytes, name, question) {
        Some(number) => {
            let line = line_at(report.bytes, number);
            out.show_numbered(report, number, line, None);
            match (events, cut_in(line, name)) {
                (Some(events), Some(cut)) => say_cut(out, events, cut),
                _ => (),
            }
        }
        None => (),
    }
}

/// The cut in the line of a report that has one for the predicate of this name.
fn cut_in<'a>(line: &'a [u8], name: &[u8]) -> Option<&'a [u8]> {
    let answer = b" possibly yes ".as_slice();
    let rest = line.get(name.len()..)?;
    if !rest.starts_with(answer) {
        return None;
    }
    rest.get(answer.len()..)
}

/// The number after these bytes, if the line begins with them.
fn number_after(line: &[u8], before: &[u8]) -> Option<u64> {
    if !line.starts_with(before) {
        return None;
    }
    let mut number = 0u64;
    for byte in line.get(before.len()..)?.iter() {
        if !byte.is_ascii_digit() {
            return None;
        }
        number = number
            .saturating_mul(10)
            .saturating_add(u64::from(byte.saturating_sub(b'0')));
    }
    Some(number)
}

/// Explains one line of what a check finds.
fn say_line(out: &mut Text, report: &Source<'_>, line: &[u8], events: Option<NotedEvents<'_>>) {
    if let Some(number) = number_after(line, b"report line ") {
        out.say("From this line on the file isn't a report.\n");
        let shown = line_at(report.bytes, number);
        out.show_numbered(report, number, shown, None);
        return;
    }
    if line == b"refused bad".as_slice() {
        out.say(
            "The session isn't refused as the report says, or it is refused and the report says otherwise: judge it to \
see what it comes to.\n",
        );
        return;
    }
    if line == b"session bad".as_slice() {
        out.say(
            "The session has other numbers of processes, events or messages than the report says.\n",
        );
        out.show_numbered(report, 1, line_at(report.bytes, 1), None);
        return;
    }
    if line == b"names bad".as_slice() {
        out.say(
            "The report doesn't answer for the predicates of the document, each once and in their order.\n",
        );
        return;
    }
    if let Some(name) = without_end(line, b" possibly bad") {
        say_evidence(out, report, name, true, events);
        return;
    }
    match without_end(line, b" definitely bad") {
        Some(name) => say_evidence(out, report, name, false, events),
        None => (),
    }
}

/// Says that what a check finds can't be explained, since not all that it checks is known.
pub fn explain_unread_finding(out: &mut Text) {
    out.say(
        "What is bad isn't explained, since a stream couldn't be read to its end, or memory ran out.\n",
    );
}

/// Says what a report has to be for a picture to be drawn by it.
pub fn explain_no_picture(out: &mut Text) {
    out.say(
        "A picture needs a report of this very session, and good evidence: `monitor check` explains what is bad.\n",
    );
}

/// Explains each line of what a check finds of this report that says that something is bad. Of a bad cut it says what
/// was noted of its events, if that is known.
pub fn explain_finding(
    out: &mut Text,
    report: &Source<'_>,
    found: &[u8],
    events: Option<NotedEvents<'_>>,
) {
    let mut rest = found;
    for _line in 0..found.len() {
        let (line, after) = cut_line(rest);
        say_line(out, report, line, events);
        let Some(after) = after else {
            return;
        };
        rest = after;
    }
}
