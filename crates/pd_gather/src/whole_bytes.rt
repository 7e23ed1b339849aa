//! Bytes that are all there.
use crate::byte_source::ByteSource;
use std::io;
use std::io::Read;

/// Bytes that are all there: no read of them fails.
#[derive(Drop)]
pub struct WholeBytes<'a> {
    rest: &'a [u8],
}

impl<'a> WholeBytes<'a> {
    ghost use Rattle.std.specs.Prelude.{◌≡◌};

    /// A source of these bytes.
    pub fn new(bytes: &'a [u8]) -> WholeBytes<'a>
        ensures { result.rest.now ≡ bytes.now }
    {
        WholeBytes { rest: bytes }
    }
}

impl<'a> ByteSource for WholeBytes<'a> {
    ghost use Rattle.std.specs.Prelude.{false};
    ghost use Rattle.def_judgement.specs.Writes.{whole_source};

    ghost left = { λ s. whole_source s.rest.now };

    ghost has_ended = { λ _. false };

    fn read_next(&mut self, piece: &mut [u8]) -> io::Result<usize> {
        self.rest.read(piece)
    }
}
