//! A stream that is kept while it is read.
ghost use Rattle.app_serve.specs.Kept.{KeepsOn};
ghost use Rattle.std.specs.Prelude.{◌≡◌, IfErr, IfOk, false, true};

use pd_report::try_write_all;
use std::io;
use std::io::Write;

/// Writes the bytes of a stream to a sink as they come, until that fails.
#[derive(Drop)]
pub struct KeptStream<W> {
    /// Where they are written.
    pub sink: W,
    /// Whether all that came was written.
    pub is_whole: bool,
}

impl<W: Write> KeptStream<W> {
    /// To which nothing has come yet.
    pub fn new(sink: W) -> KeptStream<W>
        ensures sink { result.sink ≡ sink }
        ensures whole { result.is_whole ≡ true }
    {
        KeptStream {
            sink,
            is_whole: true,
        }
    }

    /// Keeps the next bytes that came: all of them, or a prefix of them, and then nothing that comes after them.
    ///
    /// # Errors
    /// What kept it from writing, the first time: as long as there is no error, all that came is written.
    pub fn keep(&mut self, bytes: &[u8]) -> io::Result<()>
        ensures ok { IfOk result (λ _. self.old.is_whole ≡ true → self.new.is_whole ≡ true) }
        ensures err { IfErr result (λ _. (self.old.is_whole ≡ true) × (self.new.is_whole ≡ false)) }
        ensures kept { KeepsOn self.old.is_whole self.new.is_whole (W.contents self.old.sink) (W.contents self.new.sink)
            bytes.now }
    {
        if !self.is_whole {
            return Ok(());
        }
        match try_write_all(bytes, &mut self.sink) {
            Ok(()) => Ok(()),
            Err((_, error)) => {
                self.is_whole = false;
                Err(error)
            }
        }
    }
}
