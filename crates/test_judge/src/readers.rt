//! A reader that gives pieces, waits and fails.
use std::alloc::{AllocError, Global};
use std::io::{Error, ErrorKind, Read};
use std::sync::atomic::{AtomicBool, AtomicU64, Ordering};
use std::{io, thread};

/// How many turns a reader or an observer waits.
pub(crate) const TURNS: u32 = 10_000_000;

/// What a reader looks at and says, if nothing else is named.
#[derive(Drop)]
pub(crate) struct Signs {
    /// Whether a reader may go on.
    pub go: AtomicBool,
    /// Whether a reader was asked.
    pub asked: AtomicBool,
    /// How many bytes were given.
    pub given: AtomicU64,
}

impl Signs {
    /// Signs by which no reader waits.
    pub(crate) fn new() -> Signs {
        Signs {
            go: AtomicBool::new(true),
            asked: AtomicBool::new(false),
            given: AtomicU64::new(0),
        }
    }
}

/// Gives its bytes in pieces. It may wait, and it may fail.
#[derive(Drop)]
pub(crate) struct Reader<'a> {
    /// The bytes that are left.
    pub bytes: &'a [u8],
    /// The most bytes that a call gives.
    pub most: usize,
    /// How many calls don't fail.
    pub calls: usize,
    /// How the calls after them fail.
    pub failure: ErrorKind,
    /// How many bytes are left at the place where a piece ends. From there on it waits at each call.
    pub stop: usize,
    /// Whether it need not wait.
    pub go: &'a AtomicBool,
    /// Whether it was asked.
    pub asked: &'a AtomicBool,
    /// How many bytes were given.
    pub given: &'a AtomicU64,
}

impl<'a> Reader<'a> {
    /// A reader of this text that never fails, nor waits if the signs are new.
    pub(crate) fn new(text: &'a str, signs: &'a Signs) -> Reader<'a> {
        Reader {
            bytes: text.as_bytes(),
            most: usize::MAX,
            calls: usize::MAX,
            failure: ErrorKind::Other,
            stop: 0,
            go: &signs.go,
            asked: &signs.asked,
            given: &signs.given,
        }
    }
}

/// Whether this is said within the turns.
fn is_said(sign: &AtomicBool) -> bool {
    for _ in 0..TURNS {
        if sign.load(Ordering::SeqCst) {
            return true;
        }
        thread::yield_now();
    }
    false
}

impl Read for Reader<'_> {
    fn read(&mut self, buf: &mut [u8]) -> io::Result<usize> {
        self.asked.store(true, Ordering::SeqCst);
        if self.calls == 0 {
            return Err(Error::from(self.failure));
        }
        self.calls -= 1;
        let left = self.bytes.len();
        if left <= self.stop && !is_said(self.go) {
            return Err(Error::from(ErrorKind::TimedOut));
        }
        let piece = if left > self.stop {
            left - self.stop
        } else {
            left
        };
        let count = piece.min(self.most).min(buf.len());
        let given = self.bytes.read(&mut buf[..count])?;
        self.given.fetch_add(given as u64, Ordering::SeqCst);
        Ok(given)
    }
}

/// Both readers.
pub(crate) fn both<'a>(
    alloc: Global,
    first: Reader<'a>,
    second: Reader<'a>,
) -> Result<Vec<Reader<'a>>, AllocError> {
    Ok(vec![in alloc; first, second]?)
}
