//! Checks whose streams can't be read, and whose findings can't be written.
use super::ends::{checked, due_word};
use super::readers::{Reader, Signs, both};
use super::sessions::{DOCUMENT, OF_A, OF_B};
use super::writers::{Full, ROOM, Writer};
use std::alloc::Global;
use std::io::ErrorKind;
use std::random::RandomSource;
use std::sync::Wait;
use std::test::Fail;
use std::thread::Threads;

const EMPTY_A: &str = "{\"process\":\"a\"}\n{\"end\":true}\n";

/// Two streams whose messages make a cycle.
const CYCLE_A: &str = "{\"process\":\"a\"}\n{\"recv\":\"k\"}\n{\"send\":\"m\"}\n{\"end\":true}\n";

const CYCLE_B: &str = "{\"process\":\"b\"}\n{\"recv\":\"m\"}\n{\"send\":\"k\"}\n{\"end\":true}\n";

/// A session, a report that is said to be its own, and what a check of it writes.
struct Case {
    /// What the row shows.
    name: &'static str,
    document: &'static str,
    first: &'static str,
    second: &'static str,
    report: &'static str,
    end: &'static str,
    finding: &'static str,
}

static CASES: [Case; 2] = [
    Case {
        name: "another cut",
        document: DOCUMENT,
        first: OF_A,
        second: OF_B,
        report: "session 2 processes 4 events 0 messages\nboth possibly yes 2,2\nboth definitely no b,b,a,a\n",
        end: "bad",
        finding: "session good\nboth possibly bad\nboth definitely good\n",
    },
    Case {
        name: "the session's own cycle",
        document: DOCUMENT,
        first: CYCLE_A,
        second: CYCLE_B,
        report: "refused cycle a#1,b#1\n",
        end: "good",
        finding: "refused good\n",
    },
];

/// A reader of this text, a byte a call.
fn slow<'a>(text: &'a str, signs: &'a Signs) -> Reader<'a> {
    let mut reader = Reader::new(text, signs);
    reader.most = 1;
    reader
}

/// Whether a check of the case is written as far as a writer has room. The streams are read a byte a call.
fn is_written<S: RandomSource + Threads + Wait + Sync>(
    rt: &S,
    alloc: Global,
    case: &Case,
    room: usize,
    full: Full,
) -> Result<bool, Fail> {
    let signs = Signs::new();
    let readers = both(alloc, slow(case.first, &signs), slow(case.second, &signs))?;
    let mut writer = Writer::new(alloc, room, full)?;
    let end = checked(rt, alloc, case.document, case.report, readers, &mut writer);
    let due = due_word(room, case.finding, case.end);
    Ok(end == due && writer.has_taken(case.finding, room))
}

/// The writer is full after each byte of the finding in turn, and then fails or takes nothing.
#[test]
fn failed_writes_are_reported(rt: HostRuntime) -> Result<(), Fail> {
    for case in &CASES {
        for room in 0..=case.finding.len() {
            for full in [Full::Fails, Full::Idles] {
                assert!(rt;
                    is_written(&rt, rt.alloc(), case, room, full)?,
                    "{} {room}",
                    case.name
                );
            }
        }
    }
    Ok(())
}

/// A stream whose reader fails, with an empty line first.
const SECOND: &str = "\n{\"process\":\"b\"}\n{\"end\":true}\n";

/// Whether a check finds the refusal good that says in which line the second stream's reader fails, if it does so after
/// this many calls of a byte each.
fn is_refused<S: RandomSource + Threads + Wait + Sync>(
    rt: &S,
    alloc: Global,
    calls: usize,
    report: &str,
) -> Result<bool, Fail> {
    let signs = Signs::new();
    let first = Reader::new(EMPTY_A, &signs);
    let mut second = slow(SECOND, &signs);
    second.calls = calls;
    second.failure = ErrorKind::Interrupted;
    let readers = both(alloc, first, second)?;
    let mut writer = Writer::new(alloc, ROOM, Full::Fails)?;
    let end = checked(rt, alloc, DOCUMENT, report, readers, &mut writer);
    Ok(end == "good" && writer.has_taken("refused good\n", ROOM))
}

/// The refusal of the second stream if its reader fails after this many bytes.
fn refusal_after(bytes: usize) -> &'static str {
    if bytes < 1 {
        "refused stream 2 line 1 read\n"
    } else if bytes < 17 {
        "refused stream 2 line 2 read\n"
    } else {
        "refused stream 2 line 3 read\n"
    }
}

/// The second stream's reader fails after each of its bytes in turn.
#[test]
fn failed_reads_are_refusals(rt: HostRuntime) -> Result<(), Fail> {
    for calls in 0..SECOND.len() {
        assert!(rt;
            is_refused(&rt, rt.alloc(), calls, refusal_after(calls))?,
            "{calls}"
        );
    }
    Ok(())
}
