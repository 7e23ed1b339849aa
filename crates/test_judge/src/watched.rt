//! Sessions that an observer watches.
ghost use mathlib.Core.List.{IsPrefix};
ghost use Rattle.pd_register.specs.Seats.{IsWatcherOf, watched_history};

use super::ends::outcome_word;
use super::readers::{Reader, Signs, TURNS};
use super::sessions::{DOCUMENT, OF_A, OF_B, REPORT};
use super::writers::{Full, ROOM, Writer};
use pd_engine::{NoGate, Observer, Register, Row, RowState, Watcher, judge_watched};
use std::alloc::Global;
use std::random::RandomSource;
use std::sync::Wait;
use std::sync::atomic::{AtomicBool, AtomicU64, Ordering};
use std::test::Fail;
use std::thread;
use std::thread::Threads;

/// How many bytes the end line has, with its LF.
const END_LENGTH: usize = 13;

/// Whether each of these streams has joined, and none has ended.
fn are_joined(rows: &[Row]) -> bool {
    for row in rows {
        if !matches!(row.state, RowState::Joined) {
            return false;
        }
    }
    true
}

/// Whether each stream is shown to have joined, and none to have ended.
fn have_joined<T: Wait>(rt: &T, register: &Register, watcher: &mut Watcher) -> bool
    requires own { IsWatcherOf register.now watcher.old }
    ensures own { IsWatcherOf register.now watcher.new }
    ensures later { IsPrefix (watched_history watcher.old) (watched_history watcher.new) }
{
    match register.watch(rt, watcher) {
        Ok(shown) => are_joined(&shown.rows),
        Err(_) => false,
    }
}

/// Counts how often it is run, and watches for some turns until each stream has joined.
#[derive(Drop)]
struct UntilJoined<'a> {
    turns: u32,
    joined: &'a AtomicBool,
    runs: &'a AtomicU64,
}

impl Observer for UntilJoined<'_> {
    fn run<T: Threads + Wait + Sync>(&self, rt: &T, register: &Register, watcher: &mut Watcher) {
        self.runs.fetch_add(1, Ordering::SeqCst);
        for _ in 0..self.turns {
            if have_joined(rt, register, watcher) {
                self.joined.store(true, Ordering::SeqCst);
                return;
            }
            thread::yield_now();
        }
    }
}

/// Judges a session while an observer watches it for these turns, and says how that ended.
pub(crate) fn judged_and_watched<S: RandomSource + Threads + Wait + Sync>(
    rt: &S,
    alloc: Global,
    document: &str,
    readers: Vec<Reader<'_>>,
    turns: u32,
    joined: &AtomicBool,
    runs: &AtomicU64,
    writer: &mut Writer,
) -> &'static str {
    let observer = UntilJoined {
        turns,
        joined,
        runs,
    };
    let end = judge_watched(
        rt,
        alloc,
        document.as_bytes(),
        readers,
        1,
        &NoGate,
        &observer,
        writer,
    );
    outcome_word(&end)
}

/// Whether an observer sees both streams joined, each of which gives its end line only once that is seen.
fn is_seen<S: RandomSource + Threads + Wait + Sync>(rt: &S, alloc: Global) -> Result<bool, Fail> {
    let signs = Signs::new();
    let joined = AtomicBool::new(false);
    let mut readers = Vec::new(alloc);
    for text in [OF_A, OF_B] {
        let mut reader = Reader::new(text, &signs);
        reader.stop = END_LENGTH;
        reader.go = &joined;
        readers.push(reader)?;
    }
    let mut writer = Writer::new(alloc, ROOM, Full::Fails)?;
    let end = judged_and_watched(
        rt,
        alloc,
        DOCUMENT,
        readers,
        TURNS,
        &joined,
        &signs.given,
        &mut writer,
    );
    Ok(end == "judged" && joined.load(Ordering::SeqCst) && writer.has_taken(REPORT, ROOM))
}

#[test]
fn posts_are_seen_while_streams_are_read(rt: HostRuntime) -> Result<(), Fail> {
    assert!(rt; is_seen(&rt, rt.alloc())?);
    Ok(())
}
