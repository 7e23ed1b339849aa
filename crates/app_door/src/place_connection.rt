//! A connection of the system.
ghost use Rattle.app_door.specs.Doors.{received, unread};
ghost use Rattle.std.specs.Prelude.{◌≡◌, ◌++◌, ◌<◌, ◌≤◌, ℕ, List, [], IfErr, IfOk, drop, length, min, take};

use super::retried::Retried;
use std::alloc::{AllocError, Global};
use std::io;
use std::io::{ErrorKind, Read, Write};
use std::net::OpenStream;
use std::os::unix::net::UnixStream;
use std::time::Duration;

/// How many bytes are taken in at once at most.
const PIECE: usize = 4_096;

/// What connects this program with a peer.
#[derive(Drop)]
pub enum Link<S> {
    /// A connection to a port.
    Port(S),
    /// A connection to a socket.
    Socket(UnixStream),
}

/// One end of a connection that was made to a port, or to a socket. Bytes may be taken in before they are read.
#[derive(Drop)]
pub struct PlaceConnection<S> {
    link: Retried<Link<S>>,
    /// The bytes that were taken in, if any were.
    taken: Option<Vec<u8>>,
    /// How many of these were read.
    read: usize,
}

/// The bytes after this many.
pub(crate) fn bytes_after(bytes: &[u8], count: usize) -> &[u8]
    ensures { result.now ≡ drop count bytes.now }
{
    if count <= bytes.len() {
        &bytes[count..]
    } else {
        &[]
    }
}

/// Copies the first bytes into the piece, as many as there are and have room, and gives how many they are.
fn copy_first(bytes: &[u8], piece: &mut [u8]) -> usize
    ensures count { result ≡ min (length bytes.now) (length piece.old) }
    ensures room { length piece.new ≡ length piece.old }
    ensures first { take result piece.new ≡ take result bytes.now }
{
    let count = bytes.len().min(piece.len());
    piece[..count].copy_from_slice(&bytes[..count]);
    count
}

impl<S> PlaceConnection<S> {
    /// The connection of this link, of which nothing was taken in.
    pub(crate) fn new(link: Link<S>) -> PlaceConnection<S>
        ensures { received result ≡ [] }
    {
        PlaceConnection {
            link: Retried::new(link),
            taken: None,
            read: 0,
        }
    }

    /// What connects it with its peer.
    pub(crate) fn link(&self) -> &Link<S> {
        self.link.inner()
    }

    /// All bytes that were taken in.
    pub(crate) fn received(&self) -> &[u8]
        ensures { result.now ≡ received self.now }
    {
        match &self.taken {
            Some(taken) => taken,
            None => &[],
        }
    }

    /// The bytes that were taken in and not read yet.
    pub(crate) fn unread(&self) -> &[u8]
        ensures { result.now ≡ unread self.now }
    {
        bytes_after(self.received(), self.read)
    }

    /// Has reads begin after this many of the bytes that were taken in.
    pub(crate) fn start_at(&mut self, count: usize)
        ensures same { received self.new ≡ received self.old }
        ensures unread { unread self.new ≡ drop count (received self.old) }
    {
        self.read = count;
    }

    /// Moves the next of the bytes that were taken in into the piece, as many as there are and have room, and gives how
    /// many they are.
    fn read_taken(&mut self, piece: &mut [u8]) -> usize
        ensures within { result ≤ length piece.new }
        ensures first { unread self.old ≡ take result piece.new ++ unread self.new }
        ensures none { result ≡ 0 → 0 < length piece.new → unread self.old ≡ [] }
    {
        let count = copy_first(self.unread(), piece);
        self.read += count;
        count
    }

    /// Keeps these bytes for later reads, after what was taken in before.
    fn keep(&mut self, alloc: Global, bytes: &[u8]) -> Result<(), AllocError>
        ensures ok { IfOk result (λ _. received self.new ≡ received self.old ++ bytes.now) }
        ensures err { IfErr result (λ _. received self.new ≡ received self.old) }
    {
        if let Some(taken) = &mut self.taken {
            taken.extend_from_slice(bytes)?;
            return Ok(());
        }
        self.taken = Some(Vec::from_slice(alloc, bytes)?);
        Ok(())
    }
}

impl<S: OpenStream> PlaceConnection<S> {
    /// Has it wait for what comes, or not.
    ///
    /// # Errors
    /// If that can't be had.
    pub(crate) fn set_nonblocking(&self, is_nonblocking: bool) -> io::Result<()> {
        match self.link() {
            Link::Port(stream) => stream.set_nonblocking(is_nonblocking),
            Link::Socket(stream) => stream.set_nonblocking(is_nonblocking),
        }
    }

    /// Has a read take it for the end if nothing comes for so long.
    ///
    /// # Errors
    /// If that can't be had.
    pub fn limit_silence(&self, silence: Duration) -> io::Result<()> {
        match self.link() {
            Link::Port(stream) => stream.set_read_timeout(Some(silence)),
            Link::Socket(stream) => stream.set_read_timeout(Some(silence)),
        }
    }

    /// Puts the first bytes that have come and weren't read into the piece, and gives how many they are. It waits for
    /// none. Those that came to a socket are lost to whoever reads later: the system's own reading that leaves them
    /// isn't there for one.
    pub fn first_bytes(&self, piece: &mut [u8]) -> usize {
        let mut unread = self.unread();
        if !unread.is_empty() {
            return unread.read(piece).unwrap_or(0);
        }
        if self.set_nonblocking(true).is_err() {
            return 0;
        }
        match self.link() {
            Link::Port(stream) => stream.peek(piece).unwrap_or(0),
            Link::Socket(stream) => {
                let mut reader = stream;
                reader.read(piece).unwrap_or(0)
            }
        }
    }
}

impl<S: Read> PlaceConnection<S> {
    /// Takes in the next bytes that have come, if any have, and gives whether more may come. A connection that is to be
    /// waited for has to be one that doesn't wait.
    ///
    /// # Errors
    /// Out of memory; what has come is lost.
    pub(crate) fn take_in(&mut self, alloc: Global) -> Result<bool, AllocError>
        ensures { (more : List ℕ) × (received self.new ≡ received self.old ++ more) }
    {
        let mut piece = [0u8; PIECE];
        match self.link.read(&mut piece) {
            Ok(0) => Ok(false),
            Ok(count) => {
                self.keep(alloc, &piece[..count])?;
                Ok(true)
            }
            Err(error) => Ok(error.kind() == ErrorKind::WouldBlock),
        }
    }
}

impl<S: Read> Read for Link<S> {
    fn read(&mut self, piece: &mut [u8]) -> io::Result<usize> {
        match self {
            Link::Port(stream) => stream.read(piece),
            Link::Socket(stream) => stream.read(piece),
        }
    }
}

impl<S: Write> Write for Link<S> {
    fn write(&mut self, bytes: &[u8]) -> io::Result<usize> {
        match self {
            Link::Port(stream) => stream.write(bytes),
            Link::Socket(stream) => stream.write(bytes),
        }
    }

    fn flush(&mut self) -> io::Result<()> {
        match self {
            Link::Port(stream) => stream.flush(),
            Link::Socket(stream) => stream.flush(),
        }
    }
}

impl<S: Read> Read for PlaceConnection<S> {
    /// What was taken in comes first. A peer that says nothing for as long as silence is limited to has ended.
    fn read(&mut self, piece: &mut [u8]) -> io::Result<usize> {
        if !self.unread().is_empty() {
            return Ok(self.read_taken(piece));
        }
        match self.link.read(piece) {
            Err(error) if error.kind() == ErrorKind::WouldBlock => Ok(0),
            outcome => outcome,
        }
    }
}

impl<S: Write> Write for PlaceConnection<S> {
    fn write(&mut self, bytes: &[u8]) -> io::Result<usize> {
        self.link.write(bytes)
    }

    fn flush(&mut self) -> io::Result<()> {
        self.link.flush()
    }
}
