//! A network that is made up.
use pd_cli::{Network, Place};
use std::io;
use std::io::{Error, ErrorKind, Read, Write};
use std::sync::atomic::{AtomicU64, Ordering};
use std::time::Instant;

/// A peer that sends these bytes and takes none.
#[derive(Drop)]
pub(crate) struct Peer {
    bytes: &'static [u8],
}

impl Read for Peer {
    fn read(&mut self, piece: &mut [u8]) -> io::Result<usize> {
        self.bytes.read(piece)
    }
}

impl Write for Peer {
    fn write(&mut self, _bytes: &[u8]) -> io::Result<usize> {
        Err(Error::from(ErrorKind::BrokenPipe))
    }

    fn flush(&mut self) -> io::Result<()> {
        Err(Error::from(ErrorKind::BrokenPipe))
    }
}

/// Connections that are made up.
#[derive(Drop)]
pub(crate) struct Scripted {
    /// What the connections to port 1 or to a socket send, one after the other; then none can be accepted.
    streams: &'static [&'static str],
    /// How many of them were accepted.
    accepted: AtomicU64,
    /// Whether connections to other places can be accepted.
    has_watchers: bool,
}

impl Scripted {
    /// Of which no connection was accepted yet.
    pub(crate) fn new(streams: &'static [&'static str], has_watchers: bool) -> Scripted {
        Scripted {
            streams,
            accepted: AtomicU64::new(0),
            has_watchers,
        }
    }
}

impl Network for Scripted {
    ghost use Rattle.std.specs.Prelude.{⊤, false};

    type Listener = u16;

    type Connection = Peer;

    ghost may_give = { λ _ _ _. ⊤ };

    ghost is_on = { λ _ _. ⊤ };

    ghost never_fails = { false };

    /// A free port is port 1, and so is a socket, but that of watchers, which is port 2.
    fn bind(&self, place: &Place<'_>) -> io::Result<u16> {
        match place {
            Place::Port(_, port) => Ok((*port).max(1)),
            Place::Socket(path) => {
                let is_watchers = path.as_bytes().ends_with(b".watchers");
                Ok(if is_watchers { 2 } else { 1 })
            }
        }
    }

    fn port_of(&self, listener: &u16) -> Option<u16> {
        Some(*listener)
    }

    fn next_connection(&self, listener: &u16, _end: Option<Instant>) -> io::Result<Option<Peer>> {
        if *listener != 1 {
            if self.has_watchers {
                return Ok(Some(Peer { bytes: b"" }));
            }
            return Err(Error::from(ErrorKind::ConnectionAborted));
        }
        let place = self.accepted.fetch_add(1, Ordering::SeqCst);
        match self.streams.get(place as usize) {
            Some(stream) => Ok(Some(Peer {
                bytes: stream.as_bytes(),
            })),
            None => Err(Error::from(ErrorKind::ConnectionAborted)),
        }
    }

    fn seconds_from_now(&self, _seconds: u64) -> io::Result<Instant> {
        Err(Error::from(ErrorKind::Unsupported))
    }
}
