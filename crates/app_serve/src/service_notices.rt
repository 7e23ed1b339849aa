//! Tells at once what becomes of a server's session.
use super::host::Host;
use super::kept_session::stream_names;
use super::notices::Notices;
use super::place_names::{PlaceName, streams_name, watchers_name};
use super::senders::{known_senders, senders_of};
use super::strangers::{door_text, open_door_text};
use app_arguments::Place;
use app_explain::{
    StreamFault as NamedFault, StreamWord, joined_name, tell_connection, tell_places, tell_refusal,
    tell_start, tell_stop, warn_of_open,
};
use app_host::{FileSource, Network, is_loopback};
use app_text::{Text, rows_of};
use judge_session::stream_word;
use pd_engine::{Spec, StreamFault};
use std::alloc::{AllocError, Global};
use std::io;
use std::io::ErrorKind;

/// Tells whoever runs a server at once what becomes of its session, if that is wanted, and gives the files that are
/// kept the names of their processes.
#[derive(Drop)]
pub struct ServiceNotices<'a, F, N> {
    pub host: &'a Host<'a, F, N>,
    /// The document of the session.
    pub spec: &'a Spec,
}

/// What is to be told of a stream.
#[derive(Clone, Copy)]
enum Event {
    /// It has connected.
    Connected,
    /// It has said whose it is, or something else.
    Begun,
    /// It has a fault.
    Refused(StreamFault),
}

/// What is told of a stream that isn't kept any more.
fn stop_text(alloc: Global, path: &str, error: &io::Error) -> Result<Text, AllocError> {
    let why = format!(in alloc; "{error}")?;
    let mut out = Text::new(alloc);
    tell_stop(&mut out, path, &why);
    Ok(out)
}

/// Whether the watchers are said to be waited for on the next port, as beside a port that is given with no address.
fn is_next(place: &Place<'_>) -> bool {
    match place {
        Place::Port(None, port) => *port != 0,
        _ => false,
    }
}

/// What is told of the places.
fn places_text<F, N>(host: &Host<'_, F, N>, spec: &Spec) -> Result<Text, AllocError> {
    let mut out = Text::new(host.alloc);
    let (place, other) = (streams_name(host)?, watchers_name(host)?);
    let watched = if is_next(&host.service.place) {
        None
    } else {
        Some(other.shown())
    };
    tell_places(
        &mut out,
        spec.names(),
        place.shown(),
        watched,
        host.service.watchers,
    );
    Ok(out)
}

/// Whether others than this machine may connect to a place.
fn is_open(place: &Place<'_>) -> bool {
    match place {
        Place::Port(address, _) => !is_loopback(*address),
        Place::Socket(_) => false,
    }
}

/// The warning that others than this machine may connect.
fn open_text<F, N>(host: &Host<'_, F, N>) -> Result<Text, AllocError> {
    let mut out = Text::new(host.alloc);
    let place = streams_name(host)?;
    if let (PlaceName::Address(text), true) = (&place, host.service.admission.has_token()) {
        return Ok(open_door_text(host.alloc, text.as_bytes()));
    }
    warn_of_open(&mut out, place.shown());
    Ok(out)
}

/// The same in rows, if there is a reason for it, and it could be made.
fn open_rows<F, N>(host: &Host<'_, F, N>) -> Option<Vec<u8>> {
    if !is_open(&host.service.place) {
        return None;
    }
    match open_text(host) {
        Ok(text) if text.is_whole() => Some(rows_of(host.alloc, text)),
        _ => None,
    }
}

/// What is told of the stream at this place.
fn stream_text<F, N>(
    host: &Host<'_, F, N>,
    spec: &Spec,
    place: usize,
    event: Event,
) -> Result<Text, AllocError> {
    let known = known_senders(host.alloc, host.peers, host.peers.count())?;
    let senders = senders_of(host.alloc, host.peers, &known)?;
    let mut out = Text::new(host.alloc);
    if let Some(sender) = senders.get(place) {
        match event {
            Event::Connected => {
                tell_connection(&mut out, *sender, spec.names().processes() as u64)
            }
            Event::Begun => tell_start(&mut out, spec.names(), *sender, &senders),
            Event::Refused(fault) => {
                if let Some(word) = StreamWord::of(stream_word(fault.kind)) {
                    let (stream, line) = (sender.stream, fault.line);
                    let fault = NamedFault { stream, line, word };
                    tell_refusal(&mut out, host.alloc, spec.names(), fault, *sender);
                }
            }
        }
    }
    Ok(out)
}

/// The process of the document that the stream at this place has joined, if it has.
fn process_at<'a, F, N>(
    host: &Host<'_, F, N>,
    spec: &'a Spec,
    place: usize,
) -> Result<Option<&'a str>, AllocError> {
    let Some(start) = host.peers.at(place).and_then(|peer| peer.start()) else {
        return Ok(None);
    };
    let Some(name) = joined_name(host.alloc, start)? else {
        return Ok(None);
    };
    match spec.names().find(&name) {
        Some(process) if process < spec.names().processes() => {
            Ok(Some(spec.names().name(process)))
        }
        _ => Ok(None),
    }
}

/// The name of the file in which the stream at this place is kept, and the one that it is given, if it is kept and has
/// joined a process of the document.
fn names_at<F, N>(
    host: &Host<'_, F, N>,
    spec: &Spec,
    place: usize,
) -> Result<Option<(String, String)>, AllocError> {
    let Some(folder) = host.service.keep else {
        return Ok(None);
    };
    match process_at(host, spec, place)? {
        Some(process) => Ok(Some(stream_names(host.alloc, folder, place, process)?)),
        None => Ok(None),
    }
}

/// What is told, in rows, if explanations are wanted and it could be made.
fn told_rows<F, N>(host: &Host<'_, F, N>, text: Result<Text, AllocError>) -> Option<Vec<u8>> {
    match text {
        Ok(text) if host.explain && text.is_whole() => Some(rows_of(host.alloc, text)),
        _ => None,
    }
}

impl<'a, F, N: Network> ServiceNotices<'a, F, N> {
    /// Tells what a connection has to say before it is a stream, if it has to, and that is wanted.
    fn tell_door(&self) {
        if !self.host.service.admission.asks() {
            return;
        }
        if let Some(rows) = told_rows(self.host, Ok(door_text(self.host))) {
            self.host.network.tell(&rows);
        }
    }

    /// Tells where the streams and watchers are waited for, if that is wanted, and in any case that others than this
    /// machine may connect, if that is so.
    pub fn listens(&self) {
        if let Some(rows) = told_rows(self.host, places_text(self.host, self.spec)) {
            self.host.network.tell(&rows);
        }
        self.tell_door();
        if let Some(rows) = open_rows(self.host) {
            self.host.network.tell(&rows);
        }
    }
}

impl<'a, F: FileSource, N: Network> Notices for ServiceNotices<'a, F, N> {
    fn has_connected(&self, place: usize) {
        let text = stream_text(self.host, self.spec, place, Event::Connected);
        if let Some(rows) = told_rows(self.host, text) {
            self.host.network.tell(&rows);
        }
    }

    /// Gives the stream's file the name of its process too, unless there is a file of that name, as another stream's of
    /// the same process.
    fn has_begun(&self, place: usize) -> Option<String> {
        let text = stream_text(self.host, self.spec, place, Event::Begun);
        if let Some(rows) = told_rows(self.host, text) {
            self.host.network.tell(&rows);
        }
        let (numbered, named) = names_at(self.host, self.spec, place).unwrap_or(None)?;
        let renamed = match self.host.files.create(&named) {
            Ok(_) => self.host.files.rename(&numbered, &named),
            Err(error) if error.kind() == ErrorKind::AlreadyExists => return None,
            Err(error) => Err(error),
        };
        if let Err(error) = renamed {
            self.host.peers.note_unkept(self.host.alloc, &named, &error);
            return None;
        }
        Some(named)
    }

    fn has_fault(&self, place: usize, fault: StreamFault) {
        let text = stream_text(self.host, self.spec, place, Event::Refused(fault));
        if let Some(rows) = told_rows(self.host, text) {
            self.host.network.tell(&rows);
        }
    }

    fn stops_keeping(&self, path: &str, error: &io::Error) {
        let text = stop_text(self.host.alloc, path, error);
        if let Some(rows) = told_rows(self.host, text) {
            self.host.network.tell(&rows);
        }
    }
}
