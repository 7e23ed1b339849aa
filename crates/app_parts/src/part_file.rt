//! A part of a bundle as it is read, or another file.
use pd_events::StreamFault;
use pd_gather::ByteSource;
use std::io;
use std::io::Read;

/// The bytes of a part that are still to be read, or a file.
#[derive(Drop)]
pub enum PartFile<'a, F> {
    /// The bytes of a part, which are all there: no read of them fails.
    Part(&'a [u8]),
    /// A file.
    File(F),
}

impl<'a, F: ByteSource + Drop> ByteSource for PartFile<'a, F> {
    ghost use Rattle.app_parts.specs.PartSources.{has_ended_in, left_in};

    ghost left = { λ file. left_in F.left file };

    ghost has_ended = { λ file. has_ended_in F.has_ended file };

    fn read_next(&mut self, piece: &mut [u8]) -> io::Result<usize> {
        match self {
            PartFile::Part(rest) => rest.read(piece),
            PartFile::File(file) => file.read_next(piece),
        }
    }

    fn on_fault(&self, fault: StreamFault) {
        match self {
            PartFile::Part(_) => {}
            PartFile::File(file) => file.on_fault(fault),
        }
    }
}
