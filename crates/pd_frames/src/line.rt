//! Lines, batches of lines, and faults.
use std::borrow::CowSlice;

/// A line that isn't blank. Its bytes are lent by the piece in which it stands; a line that several pieces share has
/// its own.
#[derive(Debug, PartialEq, Eq, Drop)]
pub struct Line<'piece> {
    /// Its number in the stream, counted from 1; blank lines count too.
    pub number: u64,
    /// Its bytes without the LF that ends it, at most 65,536 of them.
    pub bytes: CowSlice<'piece, u8>,
}

/// Why a stream's bytes give no more lines.
#[derive(Clone, Copy, Debug, PartialEq, Eq)]
pub enum FrameFault {
    /// The line with this number has more than 65,536 bytes.
    LineTooLong(u64),
    /// The stream has more than 16,777,216 bytes, and the first byte too many stands in the line with this number.
    StreamTooLong(u64),
}

impl FrameFault {
    ghost use Rattle.std.specs.Prelude.{◌≡◌};
    ghost use Rattle.pd_frames.specs.Views.{frame_fault_view, fault_line};

    /// The number of the line in which the first faulty byte stands, counted from 1.
    pub fn line(&self) -> u64
        ensures { result ≡ fault_line (frame_fault_view self.now) }
    {
        match *self {
            FrameFault::LineTooLong(line) => line,
            FrameFault::StreamTooLong(line) => line,
        }
    }
}

/// What a piece of a stream gives.
#[derive(Debug, PartialEq, Eq, Drop)]
pub struct Batch<'piece> {
    /// The lines that are new, in their order; those before a fault come with it.
    pub lines: Vec<Line<'piece>>,
    /// The fault that the stream has, if it has one.
    pub fault: Option<FrameFault>,
}
