//! Outputs and errors that take a byte a call, have no more room, or can't be flushed.
use super::networks::Scripted;
use super::runs::{FAILED, MISUSED, REFUSED, SUCCESS, run_to};
use super::sinks::{AMPLE, FULL, Limits, SHORT, SLOW, UNFLUSHED};
use super::small::{OF_A, OF_B, REPORT};
use std::alloc::{AllocError, Global};
use std::io::Eprint;
use std::random::RandomSource;
use std::sync::Wait;
use std::test::Fail;
use std::thread::Threads;
use std::time::Clock;

/// The line that reports an output that can't be written.
const WRITE_LINE: &[u8] = b"monitor: write\n";

/// What a check finds in a report with another cut.
const BAD_CUT: &str = "session good\nboth possibly bad\nboth definitely good\n";

/// What is reported in place of a picture of that report.
const NO_PICTURE: &str =
    "monitor: no picture, for a check finds:\nsession good\nboth possibly bad\nboth definitely good\n";

/// The first bytes of a text, at most so many.
fn first(text: &[u8], count: usize) -> &[u8] {
    &text[..count.min(text.len())]
}

/// Whether a text is this, or begins with it if this isn't the whole of it.
fn is_text(text: &[u8], begin: &str, is_whole: bool) -> bool {
    text.starts_with(begin.as_bytes()) && (!is_whole || text.len() == begin.len())
}

/// Whether a run that leaves this text leaves it a byte a call too, and reports an output that can't be flushed or has
/// no room.
fn is_left<T: RandomSource + Threads + Wait + Clock + Eprint + Sync>(
    threads: &T,
    alloc: Global,
    words: &[&str],
    status: u8,
    text: &[u8],
) -> Result<bool, AllocError> {
    let cases: [(Limits, usize, u8, &[u8]); 4] = [
        (SLOW, text.len(), status, b""),
        (UNFLUSHED, text.len(), FAILED, WRITE_LINE),
        (SHORT, 10, FAILED, WRITE_LINE),
        (FULL, 0, FAILED, WRITE_LINE),
    ];
    let mut good = true;
    for (limits, count, end, line) in cases {
        let network = Scripted::new(&[OF_A, OF_B], true);
        let ran = run_to(threads, alloc, &network, words, limits, AMPLE)?;
        good = good && ran.is(end, first(text, count), line);
    }
    Ok(good)
}

/// What is run, with its status and its output: how it begins, or all of it.
const OUTPUTS: [(&str, &[&str], u8, &str, bool); 14] = [
    ("a bundle", &[], SUCCESS, REPORT, true),
    ("help", &["--help"], SUCCESS, "Judges predicates", false),
    (
        "help of a command",
        &["check", "--help"],
        SUCCESS,
        "Checks whether",
        false,
    ),
    ("files", &["judge", "spec", "a", "b"], SUCCESS, REPORT, true),
    (
        "garbage for a document",
        &["judge", "garbage", "a", "b"],
        REFUSED,
        "refused spec json\n",
        true,
    ),
    (
        "a check",
        &["check", "spec", "wrong", "a", "b"],
        REFUSED,
        BAD_CUT,
        true,
    ),
    (
        "no report",
        &["check", "spec", "garbage", "a", "b"],
        REFUSED,
        "report line 1\n",
        true,
    ),
    (
        "a picture",
        &["draw", "spec", "report", "a", "b"],
        SUCCESS,
        "<svg xmlns=",
        false,
    ),
    (
        "a picture of a predicate",
        &["draw", "--predicate", "both", "spec", "report", "a", "b"],
        SUCCESS,
        "<svg xmlns=",
        false,
    ),
    (
        "a picture of a cycle",
        &["draw", "cyclic", "cycle", "cyclic-a", "cyclic-b"],
        SUCCESS,
        "<svg xmlns=",
        false,
    ),
    (
        "a page",
        &["explore", "spec", "a", "b"],
        SUCCESS,
        "<!doctype html>",
        false,
    ),
    (
        "garbage that is explored",
        &["explore", "garbage", "a", "b"],
        REFUSED,
        "<!doctype html>",
        false,
    ),
    (
        "a server",
        &["serve", "spec", "--port", "1", "--watchers", "1"],
        SUCCESS,
        REPORT,
        true,
    ),
    (
        "a server of garbage",
        &["serve", "garbage", "--port", "1"],
        REFUSED,
        "refused spec json\n",
        true,
    ),
];

#[test]
fn outputs_that_take_little_or_fail(rt: HostRuntime) -> Result<(), Fail> {
    let alloc = rt.alloc();
    for (name, words, status, begin, is_whole) in OUTPUTS {
        let network = Scripted::new(&[OF_A, OF_B], true);
        let ran = run_to(&rt, alloc, &network, words, AMPLE, AMPLE)?;
        let text = ran.output.as_slice();
        assert!(rt;
            is_text(text, begin, is_whole) && ran.is(status, text, b""),
            "{name}"
        );
        assert!(rt; is_left(&rt, alloc, words, status, text)?, "{name}");
    }
    Ok(())
}

/// What is run and fails, with its status and what it writes on standard error: how that begins, or all of it.
const ERRORS: [(&str, &[&str], u8, &str, bool); 5] = [
    (
        "no files",
        &["check", "gone", "gone", "gone"],
        FAILED,
        "monitor: read\n",
        true,
    ),
    ("another command", &["judges"], MISUSED, "error: ", false),
    (
        "a cut that is no evidence",
        &["draw", "spec", "wrong", "a", "b"],
        REFUSED,
        NO_PICTURE,
        true,
    ),
    (
        "no predicate",
        &["draw", "--predicate", "bot", "spec", "report", "a", "b"],
        MISUSED,
        "monitor: no predicate of this name\n",
        true,
    ),
    (
        "no second stream",
        &["serve", "spec", "--port", "1"],
        FAILED,
        "monitor: network\n",
        true,
    ),
];

#[test]
fn errors_that_take_little_or_fail(rt: HostRuntime) -> Result<(), Fail> {
    let alloc = rt.alloc();
    for (name, words, status, begin, is_whole) in ERRORS {
        let network = Scripted::new(&[OF_A], false);
        let ran = run_to(&rt, alloc, &network, words, AMPLE, AMPLE)?;
        let text = ran.errors.as_slice();
        assert!(rt;
            is_text(text, begin, is_whole) && ran.is(status, b"", text),
            "{name}"
        );
        for (limits, count) in [(SLOW, text.len()), (SHORT, 10), (FULL, 0)] {
            let network = Scripted::new(&[OF_A], false);
            let ran = run_to(&rt, alloc, &network, words, AMPLE, limits)?;
            assert!(rt; ran.is(status, b"", first(text, count)), "{name}");
        }
    }
    Ok(())
}
