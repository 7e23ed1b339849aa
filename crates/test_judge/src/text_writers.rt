//! A writer that takes little at once, and then fails or takes nothing: `write_all_counted`.
use pd_report::write_all_counted;
use std::io;
use std::io::{Error, ErrorKind, Write};

/// What is written.
const TEXT: &str = "refused absent b\n";

/// A writer that takes at most this many bytes at once, and once it has as many as it may, fails or takes nothing.
#[derive(Drop)]
struct Limited {
    left: usize,
    at_once: usize,
    fails: bool,
}

impl Write for Limited {
    fn write(&mut self, buf: &[u8]) -> io::Result<usize> {
        if self.left == 0 && self.fails {
            return Err(Error::from(ErrorKind::Other));
        }
        let count = buf.len().min(self.left).min(self.at_once);
        self.left -= count;
        Ok(count)
    }

    fn flush(&mut self) -> io::Result<()> {
        Ok(())
    }
}

/// Whether a text is written until the writer has as many bytes as it may, and those are counted.
fn is_counted(text: &[u8], left: usize, at_once: usize, fails: bool) -> bool {
    let mut writer = Limited {
        left,
        at_once,
        fails,
    };
    let written = write_all_counted(text, &mut writer);
    written.err().unwrap_or(text.len() as u64) == left as u64
}

#[test]
fn bytes_are_counted_until_a_writer_stops(rt: HostRuntime) {
    let text = TEXT.as_bytes();
    for left in 0..=text.len() {
        for at_once in 1..=2 {
            assert!(rt;
                is_counted(text, left, at_once, true),
                "{left} bytes, then a failure"
            );
            assert!(rt;
                is_counted(text, left, at_once, false),
                "{left} bytes, then nothing taken"
            );
        }
    }
}
