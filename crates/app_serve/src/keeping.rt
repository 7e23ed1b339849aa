//! Keeps a stream in a file.
ghost use Rattle.app_serve.specs.Kept.{KeepsOn};
ghost use Rattle.std.specs.Prelude.{◌≡◌};

use super::kept_stream::KeptStream;
use super::notices::Notices;
use super::peers::Peers;
use std::alloc::Global;
use std::io::Write;

/// Where a stream is kept, and what that is called if it fails.
#[derive(Drop)]
pub struct Keeping<'a, W, T> {
    stream: KeptStream<W>,
    /// The file's name.
    path: String,
    /// Where a failure is noted.
    peers: &'a Peers,
    /// Who is told of it at once.
    notices: &'a T,
    alloc: Global,
}

impl<'a, W: Write, T: Notices> Keeping<'a, W, T> {
    /// Keeps a stream in this file, of this name.
    pub fn new(
        alloc: Global,
        file: W,
        path: String,
        peers: &'a Peers,
        notices: &'a T,
    ) -> Keeping<'a, W, T> {
        Keeping {
            stream: KeptStream::new(file),
            path,
            peers,
            notices,
            alloc,
        }
    }

    /// Calls the file so from here on.
    pub(crate) fn call(&mut self, path: String)
        ensures { self.new.stream ≡ self.old.stream }
    {
        self.path = path;
    }

    /// Keeps the next bytes that came: all of them, or a prefix of them, and then nothing that comes after them. If
    /// they can't be written, that is noted and told, once.
    pub(crate) fn keep(&mut self, bytes: &[u8])
        ensures { KeepsOn self.old.stream.is_whole self.new.stream.is_whole (W.contents self.old.stream.sink)
            (W.contents self.new.stream.sink) bytes.now }
    {
        if let Err(error) = self.stream.keep(bytes) {
            self.peers.note_unkept(self.alloc, &self.path, &error);
            self.notices.stops_keeping(&self.path, &error);
        }
    }
}
