//! Tells of connections that are closed before they are streams.
use super::host::Host;
use app_door::{PATIENCE, ROOM_LIMIT, Stranger, StrangerReason};
use app_host::Network;
use app_text::{Text, rows_of};
use std::alloc::Global;

/// What begins a line that is told while a server runs.
const TELLING: &str = "serve: ";

/// Of how many connections it is told one by one that they are closed.
const TOLD_LIMIT: u64 = 16;

/// Puts why a connection is closed.
fn say_reason(out: &mut Text, reason: StrangerReason) {
    match reason {
        StrangerReason::Ended => out.say("it ended before it had said whose stream it is"),
        StrangerReason::Silent => {
            out.say("it didn't say within ");
            out.say_number(PATIENCE);
            out.say(" seconds whose stream it is");
        }
        StrangerReason::Crowded => {
            out.say_number(ROOM_LIMIT as u64 - 1);
            out.say(" others wait that haven't said whose streams they are");
        }
        StrangerReason::Token => out.say("its first line isn't the token"),
        StrangerReason::Join => out.say("its first line joins no process of the document"),
        StrangerReason::Taken => out.say("it joins a process that has a stream"),
    }
}

/// The first line of what a connection sent.
fn first_line(start: &[u8]) -> &[u8] {
    match start.split(|byte| *byte == b'\n').next() {
        Some(line) => line,
        None => &[],
    }
}

/// What is told of a connection that is closed.
fn stranger_text(alloc: Global, stranger: &Stranger) -> Text {
    let mut out = Text::new(alloc);
    out.say(TELLING);
    out.say("a connection");
    if let Some(address) = &stranger.address {
        out.say(" from ");
        out.say_shown(address.as_bytes());
    }
    out.say(" is closed: ");
    say_reason(&mut out, stranger.reason);
    if stranger.start.is_empty() {
        out.say(".\n");
        return out;
    }
    out.say(". It begins so:\n");
    out.show_line(first_line(&stranger.start), None);
    out
}

/// What is told of the connection that is closed after this many others, if anything is.
fn next_text(alloc: Global, stranger: &Stranger, others: u64) -> Option<Text> {
    if others < TOLD_LIMIT {
        return Some(stranger_text(alloc, stranger));
    }
    if others > TOLD_LIMIT {
        return None;
    }
    let mut out = Text::new(alloc);
    out.say(TELLING);
    out.say("further connections are closed, and not told one by one.\n");
    Some(out)
}

/// Notes that a connection is closed, and tells of it, if that is wanted.
pub(crate) fn tell_stranger<F, N: Network>(host: &Host<'_, F, N>, stranger: &Stranger) {
    let others = host.peers.note_stranger();
    if !host.explain {
        return;
    }
    match next_text(host.alloc, stranger, others) {
        Some(text) if text.is_whole() => host.network.tell(&rows_of(host.alloc, text)),
        _ => (),
    }
}

/// Puts how many connections were closed before they were streams, and how many still waited, if there are any.
pub fn say_strangers<F, N>(out: &mut Text, host: &Host<'_, F, N>) {
    let (closed, waiting) = (host.peers.strangers(), host.peers.waiting());
    if closed > 0 {
        out.say("Connections that were closed since they joined no process without a stream: ");
        out.say_number(closed);
        out.say(".\n");
    }
    if waiting > 0 {
        out.say("Connections that hadn't said yet whose streams they are: ");
        out.say_number(waiting);
        out.say(".\n");
    }
}

/// Puts after how many seconds of silence a stream ends, if it does.
pub fn say_idle<F, N>(out: &mut Text, host: &Host<'_, F, N>) {
    let Some(seconds) = host.service.admission.idle else {
        return;
    };
    out.say("A stream that says nothing for so many seconds is ended, by --idle: ");
    out.say_number(seconds);
    out.say(".\n");
}

/// What a connection has to say before it is a stream, as it is told.
pub(crate) fn door_text<F, N>(host: &Host<'_, F, N>) -> Text {
    let mut out = Text::new(host.alloc);
    out.say(TELLING);
    out.say("a connection is a stream once it joins one of these");
    if host.service.admission.has_token() {
        out.say(", after a line with the token");
    }
    out.say("; each other one is closed.\n");
    out
}

/// The warning that others than this machine may connect to a server that asks for a token.
pub(crate) fn open_door_text(alloc: Global, place: &[u8]) -> Text {
    let mut out = Text::new(alloc);
    out.say(TELLING);
    out.say("warning: ");
    out.say_shown(place);
    out.say(
        " isn't for this machine alone, and there is no authentication but the token, which goes over the network as \
it is, and none of watchers. Bind an address of a private network only.\n",
    );
    out
}

/// Explains that the file of the token can't be read: which file, and why.
pub fn explain_unread_token(out: &mut Text, why: &str) {
    out.say("The file of the token can't be read. ");
    out.say_shown(why.as_bytes());
    out.say(
        ".\nWhat to do: give a file after --token-file that you may read, and whose first line has 1 to 1,024 bytes.\n",
    );
}
