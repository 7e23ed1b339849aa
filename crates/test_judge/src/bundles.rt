//! Bundles from a slow reader that fails, to a writer that is full.
use super::ends::{bundle_judged, due_word};
use super::readers::{Reader, Signs};
use super::writers::{Full, ROOM, Writer};
use std::alloc::Global;
use std::io::ErrorKind;
use std::random::RandomSource;
use std::sync::Wait;
use std::test::Fail;
use std::thread::Threads;

/// A bundle and its report.
struct Case {
    /// What the row shows.
    name: &'static str,
    bundle: &'static str,
    end: &'static str,
    report: &'static str,
}

static CASES: [Case; 2] = [
    Case {
        name: "lines that end with CR and LF, and none at the end",
        bundle: "{\"processes\":[{\"name\":\"a\",\"vars\":{\"x\":0}},{\"name\":\"b\",\"vars\":{\"y\":0}}],\r\n\
\"predicates\":[{\"name\":\"ahead\",\"text\":\"a.x > b.y\"}],\"width\":1}\r\n\
---\r\n{\"process\":\"b\"}\r\n\r\n{\"set\":{\"y\":1},\"recv\":\"m\"}\r\n{\"end\":true}\r\n\
---\r\n{\"process\":\"a\"}\r\n \t\r\n{\"set\":{\"x\":1},\"send\":\"m\"}\r\n{\"end\":true}",
        end: "judged",
        report: "session 2 processes 2 events 1 messages\n\
ahead possibly yes 1,0\nahead definitely yes 1\n",
    },
    Case {
        name: "no stream",
        bundle: "{\"processes\":[{\"name\":\"a\",\"vars\":{\"x\":0}}],\
\"predicates\":[{\"name\":\"up\",\"text\":\"a.x > 0\"}]}\n",
        end: "refused",
        report: "refused absent a\n",
    },
];

/// Whether the case comes out right if its reader gives a byte a call and fails after this many: if it was asked for
/// the end too, its report comes, and before that the fault alone.
fn is_read<S: RandomSource + Threads + Wait + Sync>(
    rt: &S,
    alloc: Global,
    case: &Case,
    calls: usize,
) -> Result<bool, Fail> {
    let signs = Signs::new();
    let mut reader = Reader::new(case.bundle, &signs);
    reader.most = 1;
    reader.calls = calls;
    if calls % 2 == 0 {
        reader.failure = ErrorKind::Interrupted;
    }
    let mut writer = Writer::new(alloc, ROOM, Full::Fails)?;
    let end = bundle_judged(rt, alloc, reader, &mut writer);
    if calls > case.bundle.len() {
        return Ok(end == case.end && writer.has_taken(case.report, ROOM));
    }
    Ok(end == "read" && writer.taken.is_empty())
}

/// Whether the case comes out right if its writer takes this many bytes, and fails or takes nothing then.
fn is_written<S: RandomSource + Threads + Wait + Sync>(
    rt: &S,
    alloc: Global,
    case: &Case,
    room: usize,
    full: Full,
) -> Result<bool, Fail> {
    let signs = Signs::new();
    let reader = Reader::new(case.bundle, &signs);
    let mut writer = Writer::new(alloc, room, full)?;
    let end = bundle_judged(rt, alloc, reader, &mut writer);
    let due = due_word(room, case.report, case.end);
    Ok(end == due && writer.has_taken(case.report, room))
}

/// The reader fails at each of its calls in turn.
#[test]
fn failed_reads_are_reported(rt: HostRuntime) -> Result<(), Fail> {
    for case in &CASES {
        for calls in 0..=case.bundle.len() + 1 {
            assert!(rt;
                is_read(&rt, rt.alloc(), case, calls)?,
                "{} {calls}",
                case.name
            );
        }
    }
    Ok(())
}

/// The writer is full after each byte of the report in turn, and then fails or takes nothing.
#[test]
fn failed_writes_are_reported(rt: HostRuntime) -> Result<(), Fail> {
    for case in &CASES {
        for room in 0..=case.report.len() {
            for full in [Full::Fails, Full::Idles] {
                assert!(rt;
                    is_written(&rt, rt.alloc(), case, room, full)?,
                    "{} {room}",
                    case.name
                );
            }
        }
    }
    Ok(())
}
