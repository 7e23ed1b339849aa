//! Explains what concerns the places where a server waits for streams and watchers.
use super::known_names::say_processes;
use super::peers::TELLING;
use app_text::Text;
use pd_pred::Names;
use std::alloc::AllocError;

/// Where a server waits for connections.
#[derive(Clone, Copy)]
pub enum ServedPlace<'a> {
    /// A port, to which only this machine can connect.
    Port(u64),
    /// A port of an address, as `192.168.0.2:7411`.
    Address(&'a str),
    /// A socket at this path.
    Socket(&'a str),
}

/// Says where that is.
pub(crate) fn say_place(out: &mut Text, place: ServedPlace<'_>) {
    match place {
        ServedPlace::Port(port) => {
            out.say("port ");
            out.say_number(port);
        }
        ServedPlace::Address(text) => out.say_shown(text.as_bytes()),
        ServedPlace::Socket(path) => out.say_shown(path.as_bytes()),
    }
}

/// What is to be done if not all streams have connected there in time.
pub(crate) fn wait_advice(place: ServedPlace<'_>) -> &'static str {
    match place {
        ServedPlace::Port(_) => {
            "start what is missing, let it connect to that port of this machine, or wait longer by --wait."
        }
        ServedPlace::Address(_) => {
            "start what is missing, let it connect to that port of that address, or wait longer by --wait."
        }
        ServedPlace::Socket(_) => {
            "start what is missing, let it connect to that socket, or wait longer by --wait."
        }
    }
}

/// What is to be done if it can't be bound.
fn bind_advice(place: ServedPlace<'_>) -> &'static str {
    match place {
        ServedPlace::Port(_) =>
            ". If a program has it, end that; or choose another port after --port.\n",
        ServedPlace::Address(_) => {
            ". Give an address of this machine after --bind; if a program has that port, end that, or choose another \
port after --port.\n"
        }
        ServedPlace::Socket(_) => {
            ". If something of that name is there, as a server leaves it that was stopped by force, remove it unless \
another server uses it; or give another path after --socket, in a folder that there is.\n"
        }
    }
}

/// Explains that a place can't be bound, in the words of the system.
pub fn explain_unbound(out: &mut Text, place: ServedPlace<'_>, why: &str) {
    match place {
        ServedPlace::Port(port) => {
            out.say("Port ");
            out.say_number(port);
            out.say(" of this machine can't be used: ");
        }
        ServedPlace::Address(text) => {
            out.say("Address ");
            out.say_shown(text.as_bytes());
            out.say(" can't be used: ");
        }
        ServedPlace::Socket(path) => {
            out.say("The socket ");
            out.say_shown(path.as_bytes());
            out.say(" can't be made: ");
        }
    }
    out.say_shown(why.as_bytes());
    out.say(bind_advice(place));
}

/// Explains that no connection could be accepted there.
pub fn explain_connection(out: &mut Text, place: ServedPlace<'_>) {
    out.say("A connection to ");
    say_place(out, place);
    out.say(match place {
        ServedPlace::Socket(_) => " couldn't be accepted: try again.\n",
        _ => " couldn't be accepted, or the port was taken until now: try again.\n",
    });
}

/// Explains that the file of the port couldn't be written: which file, and why.
pub fn explain_unfiled(out: &mut Text, why: &str) {
    out.say("The file of the port can't be written. ");
    out.say_shown(why.as_bytes());
    out.say(
        ".\nWhat to do: give a file after --port-file in a folder that there is and into which you may write.\n",
    );
}

/// Says how many watchers there are.
fn say_watchers(out: &mut Text, watchers: u64) {
    out.say(" for ");
    out.say_number(watchers);
    out.say(if watchers == 1 {
        " watcher"
    } else {
        " watchers"
    });
}

/// Tells where the streams are waited for, and whose, and how many watchers: at the next port, or at another place that
/// is named.
pub fn tell_places(
    out: &mut Text,
    names: &Names,
    place: ServedPlace<'_>,
    watched: Option<ServedPlace<'_>>,
    watchers: u64,
) {
    out.say(TELLING);
    say_place(out, place);
    if let ServedPlace::Port(_) = place {
        out.say(" of this machine");
    }
    out.say(" waits for the streams of ");
    say_processes(out, names);
    if watchers > 0 {
        out.say(", and ");
        match watched {
            Some(other) => say_place(out, other),
            None => out.say("the next one"),
        }
        say_watchers(out, watchers);
    }
    out.say(".\n");
}

/// Warns that others than this machine may connect to an address.
pub fn warn_of_open(out: &mut Text, place: ServedPlace<'_>) {
    out.say(TELLING);
    out.say("warning: ");
    say_place(out, place);
    out.say(
        " isn't for this machine alone, and there is no authentication: whoever can connect to it can be a stream, or \
a watcher. Bind an address of a private network only.\n",
    );
}
