//! Who sends the streams of a server.
use super::peer::Peer;
use def_format::PROCESS_LIMIT;
use std::alloc::{AllocError, Global};
use std::io;
use std::sync::OnceLock;
use std::sync::atomic::{AtomicBool, AtomicU64, Ordering};

/// Who sends the streams, in the order in which they connected; or nobody, if that isn't wanted.
#[derive(Drop)]
pub struct Peers {
    /// A peer for each stream that there may be, or none.
    all: Vec<Peer>,
    /// Whether something couldn't be kept that is to be.
    has_failed: AtomicBool,
    /// What couldn't be, and why.
    unkept: OnceLock<String>,
    /// The file of the port that couldn't be written, and why.
    unfiled: OnceLock<String>,
    /// Whether the place that couldn't be bound is that of the watchers, and why it couldn't.
    unbound: OnceLock<(bool, String)>,
    /// The file of the token that couldn't be read, and why.
    unread_token: OnceLock<String>,
    /// How many connections were closed before they were streams.
    strangers: AtomicU64,
    /// How many connections were neither streams nor closed when the time was over.
    waiting: AtomicU64,
    /// The port that is bound for the streams.
    port: OnceLock<u16>,
    /// The port that is bound for the watchers.
    watchers_port: OnceLock<u16>,
}

/// A peer for each stream that there may be.
fn unknown_peers(alloc: Global) -> Result<Vec<Peer>, AllocError> {
    let mut all = Vec::new(alloc);
    for _place in 0..PROCESS_LIMIT {
        all.push(Peer::unknown())?;
    }
    Ok(all)
}

impl Peers {
    /// A peer for each stream that there may be, if that is wanted and there is memory for it.
    pub fn new(alloc: Global, is_wanted: bool) -> Peers {
        if is_wanted {
            if let Ok(all) = unknown_peers(alloc) {
                return Peers::of(all);
            }
        }
        Peers::of(Vec::new(alloc))
    }

    /// These peers, of whom nothing has failed to be kept.
    fn of(all: Vec<Peer>) -> Peers {
        Peers {
            all,
            has_failed: AtomicBool::new(false),
            unkept: OnceLock::new(),
            unfiled: OnceLock::new(),
            unbound: OnceLock::new(),
            unread_token: OnceLock::new(),
            strangers: AtomicU64::new(0),
            waiting: AtomicU64::new(0),
            port: OnceLock::new(),
            watchers_port: OnceLock::new(),
        }
    }

    /// Notes that this couldn't be kept, and why.
    pub fn note_unkept(&self, alloc: Global, name: &str, error: &io::Error) {
        self.has_failed.store(true, Ordering::SeqCst);
        if let Ok(text) = format!(in alloc; "{name}: {error}") {
            let _ = self.unkept.try_set(text);
        }
    }

    /// Whether something couldn't be kept.
    pub fn has_failed(&self) -> bool {
        self.has_failed.load(Ordering::SeqCst)
    }

    /// Notes that the file of the port couldn't be written, and why.
    pub fn note_unfiled(&self, alloc: Global, name: &str, error: &io::Error) {
        if let Ok(text) = format!(in alloc; "{name}: {error}") {
            let _ = self.unfiled.try_set(text);
        }
    }

    /// Why the file of the port couldn't be written, if that was noted.
    pub fn unfiled(&self) -> Option<&str> {
        match self.unfiled.get() {
            Some(text) => Some(text.as_str()),
            None => None,
        }
    }

    /// Notes that the file of the token couldn't be read, and why.
    pub fn note_unread_token(&self, alloc: Global, name: &str, error: &io::Error) {
        if let Ok(text) = format!(in alloc; "{name}: {error}") {
            let _ = self.unread_token.try_set(text);
        }
    }

    /// Why the file of the token couldn't be read, if that was noted.
    pub fn unread_token(&self) -> Option<&str> {
        match self.unread_token.get() {
            Some(text) => Some(text.as_str()),
            None => None,
        }
    }

    /// Notes that a connection was closed before it was a stream, and gives how many were before.
    pub fn note_stranger(&self) -> u64 {
        self.strangers.fetch_add(1, Ordering::SeqCst)
    }

    /// How many connections were closed before they were streams.
    pub fn strangers(&self) -> u64 {
        self.strangers.load(Ordering::SeqCst)
    }

    /// Notes how many connections were neither streams nor closed when the time was over.
    pub fn note_waiting(&self, count: usize) {
        self.waiting.store(count as u64, Ordering::SeqCst);
    }

    /// How many connections were neither streams nor closed when the time was over.
    pub fn waiting(&self) -> u64 {
        self.waiting.load(Ordering::SeqCst)
    }

    /// Notes that the place of the streams, or that of the watchers, couldn't be bound, and why.
    pub fn note_unbound(&self, alloc: Global, is_watchers: bool, error: &io::Error) {
        if let Ok(text) = format!(in alloc; "{error}") {
            let _ = self.unbound.try_set((is_watchers, text));
        }
    }

    /// Whether the place that couldn't be bound is that of the watchers, and why it couldn't, if there was one.
    pub fn unbound(&self) -> Option<(bool, &str)> {
        match self.unbound.get() {
            Some((is_watchers, text)) => Some((*is_watchers, text.as_str())),
            None => None,
        }
    }

    /// Notes the port that is bound for the streams.
    pub fn note_port(&self, port: u16) {
        let _ = self.port.try_set(port);
    }

    /// The port that is bound for the streams, if that was noted.
    pub fn port(&self) -> Option<u16> {
        match self.port.get() {
            Some(port) => Some(*port),
            None => None,
        }
    }

    /// Notes the port that is bound for the watchers.
    pub fn note_watchers_port(&self, port: u16) {
        let _ = self.watchers_port.try_set(port);
    }

    /// The port that is bound for the watchers, if that was noted.
    pub fn watchers_port(&self) -> Option<u16> {
        match self.watchers_port.get() {
            Some(port) => Some(*port),
            None => None,
        }
    }

    /// What couldn't be kept first, and why.
    pub fn unkept(&self) -> Option<&str> {
        match self.unkept.get() {
            Some(text) => Some(text.as_str()),
            None => None,
        }
    }

    /// How many streams have connected, as far as that is noted.
    pub fn count(&self) -> usize {
        let mut count = 0usize;
        for peer in &self.all {
            if peer.is_known() {
                count = count.saturating_add(1);
            }
        }
        count
    }

    /// Who sends the stream at this place, which is counted from 0, if that is noted.
    pub fn at(&self, place: usize) -> Option<&Peer> {
        self.all.get(place)
    }
}
