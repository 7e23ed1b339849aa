//! Explains what concerns those who send the streams of a server.
ghost use Rattle.app_explain.specs.Peers.{is_earlier, is_sent, missing, missing_text, process_names};
ghost use Rattle.app_text.specs.Texts.{Says};
ghost use Rattle.std.specs.List.{list_any};
ghost use Rattle.std.specs.Prelude.{◌≡◌, not};

use super::known_names::name_at;
use super::record_details::place_in_record;
use super::served_places::{ServedPlace, say_place, wait_advice};
use super::streams::{StreamFault, advice, expected, say_head, say_instead, say_refused};
use super::words::StreamWord;
use app_text::Text;
use pd_pred::Names;
use std::alloc::Global;

/// What begins a line that is told while a server runs.
pub(crate) const TELLING: &str = "serve: ";

/// Who sends a stream, as far as it is known.
#[derive(Clone, Copy)]
pub struct Sender<'a> {
    /// The number of the stream, counted from 1.
    pub stream: u64,
    /// From which address it comes, as `from 127.0.0.1:40000`; it is empty if that isn't known.
    pub origin: &'a str,
    /// The name of its process, if it has said that.
    pub process: Option<&'a str>,
    /// Its first line, or what has come of it.
    pub start: &'a [u8],
    /// The line at which it is refused, or its last one if it ends too soon, if that is known.
    pub line: Option<&'a [u8]>,
}

/// The first line without the line feed that ends it, and a carriage return before that.
fn first_line(start: &[u8]) -> &[u8] {
    match start.split_last() {
        Some((b'\n', line)) => line,
        _ => start,
    }
}

/// Shows how a stream begins that hasn't said whose it is.
fn show_start(out: &mut Text, sender: Sender<'_>) {
    if sender.start.is_empty() {
        out.say("Nothing came of it.\n");
        return;
    }
    out.say("It begins so:\n");
    out.show_line(first_line(sender.start), None);
}

/// Says on a line who sends a stream.
fn say_sender(out: &mut Text, sender: Sender<'_>) {
    out.say("    stream ");
    out.say_number(sender.stream);
    if !sender.origin.is_empty() {
        out.say(", ");
        out.say_shown(sender.origin.as_bytes());
        out.say(",");
    }
    match sender.process {
        Some(process) => {
            out.say(" is the one of ");
            out.say_name(process);
            out.say("\n");
        }
        None => {
            out.say(" hasn't said whose it is. ");
            show_start(out, sender);
        }
    }
}

/// Shows this line, at which a stream is refused that this peer sent, or the last one if the stream ended too soon.
fn show_sent_line(
    out: &mut Text,
    alloc: Global,
    names: Option<&Names>,
    fault: StreamFault,
    sender: Sender<'_>,
    line: &[u8],
) {
    out.say("stream ");
    out.say_number(sender.stream);
    let number = fault
        .line
        .saturating_sub((fault.word == StreamWord::Unended) as u64);
    let Some(names) = names else {
        out.show_line_of(number, line, None);
        return;
    };
    let process = sender.process.and_then(|name| names.find(name));
    let Some(place) = out.take_made(place_in_record(alloc, names, process, line, fault.word)) else {
        return;
    };
    out.show_line_of(number, line, place);
}

/// Shows where a stream is refused that this peer sent, or how it begins if it is refused there.
fn show_refused(
    out: &mut Text,
    alloc: Global,
    names: Option<&Names>,
    fault: StreamFault,
    sender: Sender<'_>,
) {
    let Some(line) = sender.line else {
        if sender.process.is_none() || fault.line <= 1 {
            show_start(out, sender);
            return;
        }
        return;
    };
    if fault.word == StreamWord::Unended {
        out.say("Its last line is this one. ");
    }
    out.say("In ");
    show_sent_line(out, alloc, names, fault, sender, line);
    match names {
        Some(names) => say_instead(out, alloc, names, sender.process, line, fault.word),
        None => (),
    }
}

/// Whether an earlier stream than this one is of the same process.
fn is_earlier(other: Sender<'_>, sender: Sender<'_>) -> bool
    ensures { result ≡ is_earlier other.entry sender.entry }
{
    other.stream < sender.stream && other.process == sender.process
}

/// Explains why a stream is refused that this peer sent.
fn explain_sent(
    out: &mut Text,
    alloc: Global,
    names: Option<&Names>,
    fault: StreamFault,
    sender: Sender<'_>,
    all: &[Sender<'_>],
) {
    say_head(out, fault, sender.origin, sender.process);
    if fault.word == StreamWord::Taken {
        for other in all {
            if is_earlier(*other, sender) {
                say_sender(out, *other);
                return;
            }
        }
    }
    show_refused(out, alloc, names, fault, sender);
}

/// Explains why a stream of a server is refused: by whom it was sent, of these, and the line at fault, or how it begins
/// if it doesn't say whose it is. What there is in place of an unknown name is said if the names of the document are
/// known.
pub fn explain_sent_stream(
    out: &mut Text,
    alloc: Global,
    names: Option<&Names>,
    fault: StreamFault,
    senders: &[Sender<'_>],
) {
    match senders.iter().find(|sender| sender.stream == fault.stream) {
        Some(sender) => explain_sent(out, alloc, names, fault, *sender, senders),
        None => say_head(out, fault, "", None),
    }
    out.say("Streams count in the order in which they connected.\n");
    out.say_advice(expected(fault.word), advice(fault.word));
}

/// Says of each stream who sends it.
fn show_senders(out: &mut Text, senders: &[Sender<'_>]) {
    for sender in senders {
        say_sender(out, *sender);
    }
}

/// Whether one of these streams is the one of the process of this name.
fn is_sent(senders: &[Sender<'_>], name: &str) -> bool
    ensures { result ≡ is_sent senders.now name.now }
{
    senders.iter().any(|sender| sender.process == Some(name))
}

/// Says which processes of the document have sent none of these streams.
fn say_missing(out: &mut Text, names: &Names, senders: &[Sender<'_>])
    ensures { Says (missing_text (missing senders.now (process_names names.now))) out.old out.new }
{
    let mut said = "Missing: ";
    for process in 0..names.processes() {
        let name = name_at(names, process);
        if !is_sent(senders, name) {
            out.say(said);
            out.say_name(name);
            said = ", ";
        }
    }
    out.say(".\n");
}

/// Explains that not all streams have connected in time: which have, and which processes are missing.
pub fn explain_wait(
    out: &mut Text,
    names: &Names,
    place: ServedPlace<'_>,
    seconds: u64,
    senders: &[Sender<'_>],
) {
    out.say("In ");
    out.say_number(seconds);
    out.say(if seconds == 1 {
        " second "
    } else {
        " seconds "
    });
    out.say_number(senders.len() as u64);
    out.say(" of ");
    out.say_number(names.processes() as u64);
    out.say(" streams connected to ");
    say_place(out, place);
    out.say(if senders.is_empty() { ".\n" } else { ":\n" });
    show_senders(out, senders);
    say_missing(out, names, senders);
    out.say_advice(
        "a connection for each process of the document.",
        wait_advice(place),
    );
}

/// Explains that a session couldn't be kept: which file, and why.
pub fn explain_unkept(out: &mut Text, why: Option<&str>) {
    out.say("Not all of the session is kept. ");
    if let Some(why) = why {
        out.say_shown(why.as_bytes());
        out.say(".\n");
    }
    out.say_advice(
        "an empty folder, or a name that nothing has yet in a folder that there is; and room for all that comes.",
        "give another folder after --keep, or make room.",
    );
}

/// Tells that what comes of a stream isn't kept any more in the file of this name, and why.
pub fn tell_stop(out: &mut Text, path: &str, why: &str) {
    out.say(TELLING);
    out.say_shown(path.as_bytes());
    out.say(" can't be written: ");
    out.say_shown(why.as_bytes());
    out.say(
        ". What comes of that stream from here on isn't kept; the session is judged all the same.\n",
    );
}

/// Tells that a stream has connected, one of this many.
pub fn tell_connection(out: &mut Text, sender: Sender<'_>, count: u64) {
    out.say(TELLING);
    out.say("stream ");
    out.say_number(sender.stream);
    out.say(" of ");
    out.say_number(count);
    out.say(" has connected");
    if !sender.origin.is_empty() {
        out.say(", ");
        out.say_shown(sender.origin.as_bytes());
    }
    out.say(".\n");
}

/// Whether a process of the document has sent none of these streams.
fn is_missing(names: &Names, senders: &[Sender<'_>]) -> bool
    ensures { result ≡ list_any (λ name. not (is_sent senders.now name)) (process_names names.now) }
{
    for process in 0..names.processes() {
        if !is_sent(senders, name_at(names, process)) {
            return true;
        }
    }
    false
}

/// Tells how a stream begins, one of these: whose it is, and whose are missing; or that it doesn't say that.
pub fn tell_start(out: &mut Text, names: &Names, sender: Sender<'_>, senders: &[Sender<'_>]) {
    out.say(TELLING);
    out.say("stream ");
    out.say_number(sender.stream);
    let Some(process) = sender.process else {
        out.say(" hasn't said whose it is. ");
        show_start(out, sender);
        return;
    };
    out.say(" is the one of ");
    out.say_name(process);
    if is_missing(names, senders) {
        out.say(". ");
        say_missing(out, names, senders);
        return;
    }
    out.say(". None is missing.\n");
}

/// Tells that a stream is refused, at which line and why, and when the report comes. The line is shown, unless it was
/// told before how the stream begins, since it hasn't said whose it is.
pub fn tell_refusal(
    out: &mut Text,
    alloc: Global,
    names: &Names,
    fault: StreamFault,
    sender: Sender<'_>,
) {
    out.say(TELLING);
    out.say("stream ");
    say_refused(out, fault, sender.origin, sender.process);
    if let (Some(_), Some(line)) = (sender.process, sender.line) {
        out.say(TELLING);
        show_sent_line(out, alloc, Some(names), fault, sender, line);
    }
    out.say(TELLING);
    out.say("no more of it is read; the report comes once the other streams have ended.\n");
}
