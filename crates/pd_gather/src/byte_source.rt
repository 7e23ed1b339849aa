//! Where the bytes of streams come from.
use pd_events::StreamFault;
use std::io;
use std::io::Read;

/// Where bytes come from: every reader is one, of which isn't known whether a read fails, and so are bytes that are all
/// there (`WholeBytes`), of which none does. It is asked again only if the last read gave a byte.
pub trait ByteSource {
    ghost use Rattle.std.specs.Prelude.{◌≡◌, ◌≢◌, IfOk, Bool, false};
    ghost use Rattle.std.specs.Io.KnownBytes.{ReadConsumes};
    ghost use Rattle.std.specs.Io.{ReadsAtMost};
    ghost use Rattle.pd_gather.specs.Sources.{KeepsFate};
    ghost use Rattle.def_judgement.specs.Writes.{Source};

    // What is known of what it has left: the bytes that it will give from here on, and whether a read fails after them.
    ghost left: { Self → Source };

    // Whether it has given its end, or failed: it is not asked again.
    ghost has_ended: { Self → Bool };

    /// Puts the next bytes into the piece, and gives how many they are: none only at its end, or if the piece has no
    /// room.
    ///
    /// # Errors
    /// If the read fails; no byte is lost. No read of a source fails if it is known that none does, and if it is known
    /// that one does, the source gives all its bytes before.
    fn read_next(&mut self, piece: &mut [u8]) -> io::Result<usize>
        requires open { has_ended self.old ≡ false }
        ensures bound { ReadsAtMost result piece.new }
        ensures bytes { ReadConsumes (left self.old).bytes (left self.new).bytes result piece.new }
        ensures open { IfOk result (λ count. count ≢ 0 → has_ended self.new ≡ false) }
        ensures fate { KeepsFate (left self.old) (left self.new) result piece.new };

    /// Hears, as soon as that is certain, that the stream which the bytes make has this fault: no more of them are
    /// wanted.
    fn on_fault(&self, _fault: StreamFault) {}
}

impl<R: Read> ByteSource for R {
    ghost use Rattle.std.specs.Prelude.{None, false};

    ghost left = { λ r. record { bytes = R.remaining r; fails = None } };

    ghost has_ended = { λ _. false };

    fn read_next(&mut self, piece: &mut [u8]) -> io::Result<usize> {
        self.read(piece)
    }
}
