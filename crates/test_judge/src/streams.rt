//! Streams whose readers wait for one another or fail.
use super::ends::{due_word, judged};
use super::readers::{Reader, Signs, both};
use super::sessions::{DOCUMENT, OF_A, OF_B, REPORT};
use super::writers::{Full, ROOM, Writer};
use std::alloc::Global;
use std::io::ErrorKind;
use std::random::RandomSource;
use std::sync::Wait;
use std::sync::atomic::Ordering;
use std::test::Fail;
use std::thread::Threads;

/// Whether the session of these streams has this report, and a writer with this room ends in this word.
fn is_judged<'x, S: RandomSource + Threads + Wait + Sync>(
    rt: &S,
    alloc: Global,
    first: Reader<'x>,
    second: Reader<'x>,
    room: usize,
    end: &str,
    report: &str,
) -> Result<bool, Fail> {
    let readers = both(alloc, first, second)?;
    let mut writer = Writer::new(alloc, room, Full::Fails)?;
    let ended = judged(rt, alloc, DOCUMENT, readers, &mut writer);
    Ok(ended == end && writer.has_taken(report, room))
}

/// Whether the session is judged if each reader answers only once the other one was asked.
fn is_read_at_once<S: RandomSource + Threads + Wait + Sync>(
    rt: &S,
    alloc: Global,
) -> Result<bool, Fail> {
    let of_first = Signs::new();
    let of_second = Signs::new();
    let mut first = Reader::new(OF_A, &of_first);
    first.stop = OF_A.len();
    first.go = &of_second.asked;
    let mut second = Reader::new(OF_B, &of_second);
    second.stop = OF_B.len();
    second.go = &of_first.asked;
    is_judged(rt, alloc, first, second, ROOM, "judged", REPORT)
}

/// Whether all of the first stream is read after the second one has failed.
fn is_read_on<S: RandomSource + Threads + Wait + Sync>(
    rt: &S,
    alloc: Global,
) -> Result<bool, Fail> {
    let of_first = Signs::new();
    let of_second = Signs::new();
    let mut first = Reader::new(OF_A, &of_first);
    first.stop = OF_A.len();
    first.go = &of_second.asked;
    let mut second = Reader::new("", &of_second);
    second.calls = 0;
    let report = "refused stream 2 line 1 read\n";
    let right = is_judged(rt, alloc, first, second, ROOM, "refused", report)?;
    Ok(right && of_first.given.load(Ordering::SeqCst) == OF_A.len() as u64)
}

#[test]
fn streams_are_read_at_once(rt: HostRuntime) -> Result<(), Fail> {
    assert!(rt; is_read_at_once(&rt, rt.alloc())?);
    assert!(rt; is_read_on(&rt, rt.alloc())?);
    Ok(())
}

/// What the reader of the second stream gives until it fails, and how the session ends.
struct Failing {
    text: &'static str,
    most: usize,
    calls: usize,
    end: &'static str,
    report: &'static str,
}

/// A failed read is a fault of its stream, in the line in which the next byte would have stood. After the end line the
/// reader isn't asked again, so nothing fails.
static FAILING: [Failing; 3] = [
    Failing {
        text: OF_B,
        most: 1,
        calls: 0,
        end: "refused",
        report: "refused stream 2 line 1 read\n",
    },
    Failing {
        text: OF_B,
        most: 1,
        calls: OF_B.len() - 1,
        end: "refused",
        report: "refused stream 2 line 4 read\n",
    },
    Failing {
        text: OF_B,
        most: 1,
        calls: OF_B.len(),
        end: "judged",
        report: REPORT,
    },
];

/// Whether the session of the row ends as it says, if its writer has this much room.
fn is_right<S: RandomSource + Threads + Wait + Sync>(
    rt: &S,
    alloc: Global,
    row: &Failing,
    room: usize,
) -> Result<bool, Fail> {
    let signs = Signs::new();
    let first = Reader::new(OF_A, &signs);
    let mut second = Reader::new(row.text, &signs);
    second.most = row.most;
    second.calls = row.calls;
    second.failure = ErrorKind::Interrupted;
    let end = due_word(room, row.report, row.end);
    is_judged(rt, alloc, first, second, room, end, row.report)
}

/// The writer is full after each byte of the report in turn.
#[test]
fn failed_reads_are_faults_of_streams(rt: HostRuntime) -> Result<(), Fail> {
    for row in &FAILING {
        for room in 0..=row.report.len() {
            assert!(rt;
                is_right(&rt, rt.alloc(), row, room)?,
                "{} {room}",
                row.calls
            );
        }
    }
    Ok(())
}
