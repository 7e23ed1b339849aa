//! A session of two processes, and whose streams are read.
use super::ends::judged;
use super::readers::{Reader, Signs};
use super::watched::judged_and_watched;
use super::writers::{Full, ROOM, Writer};
use std::alloc::{AllocError, Global};
use std::random::RandomSource;
use std::sync::Wait;
use std::sync::atomic::{AtomicBool, AtomicU64, Ordering};
use std::test::Fail;
use std::thread::Threads;

pub(crate) const DOCUMENT: &str =
    "{\"processes\":[{\"name\":\"a\",\"vars\":{\"x\":0}},{\"name\":\"b\",\"vars\":{\"y\":0}}],\
\"predicates\":[{\"name\":\"both\",\"text\":\"a.x == 1 and b.y == 1\"}]}";

pub(crate) const OF_A: &str =
    "{\"process\":\"a\"}\n{\"set\":{\"x\":1}}\n{\"set\":{\"x\":0}}\n{\"end\":true}\n";

pub(crate) const OF_B: &str =
    "{\"process\":\"b\"}\n{\"set\":{\"y\":1}}\n{\"set\":{\"y\":0}}\n{\"end\":true}\n";

pub(crate) const REPORT: &str =
    "session 2 processes 4 events 0 messages\nboth possibly yes 1,1\nboth definitely no b,b,a,a\n";

/// A session of this many streams, those of the two processes in turns.
struct Case {
    /// What the row shows.
    name: &'static str,
    document: &'static str,
    streams: u32,
    end: &'static str,
    report: &'static str,
    /// How often an observer is run.
    runs: u64,
}

static CASES: [Case; 4] = [
    Case {
        name: "a document that is none",
        document: "",
        streams: 2,
        end: "refused",
        report: "refused spec json\n",
        runs: 0,
    },
    Case {
        name: "one stream",
        document: DOCUMENT,
        streams: 1,
        end: "refused",
        report: "refused absent b\n",
        runs: 1,
    },
    Case {
        name: "two streams",
        document: DOCUMENT,
        streams: 2,
        end: "judged",
        report: REPORT,
        runs: 1,
    },
    Case {
        name: "too many streams",
        document: DOCUMENT,
        streams: 33,
        end: "refused",
        report: "refused streams\n",
        runs: 0,
    },
];

/// This many readers, of the two streams in turns.
fn readers_of<'a>(
    alloc: Global,
    streams: u32,
    signs: &'a Signs,
) -> Result<Vec<Reader<'a>>, AllocError> {
    let mut readers = Vec::new(alloc);
    for stream in 0..streams {
        let text = if stream % 2 == 0 { OF_A } else { OF_B };
        readers.push(Reader::new(text, signs))?;
    }
    Ok(readers)
}

/// Whether `judge` writes the report of a case.
fn is_judged<S: RandomSource + Threads + Wait + Sync>(
    rt: &S,
    alloc: Global,
    case: &Case,
) -> Result<bool, Fail> {
    let signs = Signs::new();
    let readers = readers_of(alloc, case.streams, &signs)?;
    let mut writer = Writer::new(alloc, ROOM, Full::Fails)?;
    let end = judged(rt, alloc, case.document, readers, &mut writer);
    Ok(end == case.end && writer.has_taken(case.report, ROOM))
}

/// Whether `judge_watched` writes the report of a case, and how often it runs the observer.
fn is_judged_and_watched<S: RandomSource + Threads + Wait + Sync>(
    rt: &S,
    alloc: Global,
    case: &Case,
) -> Result<(bool, u64), Fail> {
    let signs = Signs::new();
    let readers = readers_of(alloc, case.streams, &signs)?;
    let mut writer = Writer::new(alloc, ROOM, Full::Fails)?;
    let joined = AtomicBool::new(false);
    let runs = AtomicU64::new(0);
    let end = judged_and_watched(
        rt,
        alloc,
        case.document,
        readers,
        0,
        &joined,
        &runs,
        &mut writer,
    );
    let right = end == case.end && writer.has_taken(case.report, ROOM);
    Ok((right, runs.load(Ordering::SeqCst)))
}

/// The observer is run once if the streams are read, and not at all otherwise.
#[test]
fn sessions_are_judged_and_watched(rt: HostRuntime) -> Result<(), Fail> {
    for case in &CASES {
        let judged = is_judged(&rt, rt.alloc(), case)?;
        let watched = is_judged_and_watched(&rt, rt.alloc(), case)?;
        assert!(rt; judged && watched == (true, case.runs), "{}", case.name);
    }
    Ok(())
}
