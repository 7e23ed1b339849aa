//! The line of a terminal that is written over.
use super::progress::Progress;
use pd_engine::Reached;
use std::io::Eprint;
use std::sync::atomic::{AtomicU64, Ordering};
use std::time::{Clock, Duration};

/// How many milliseconds of work pass before it is shown how much is read, or to which level a walk has come.
const PATIENCE: u64 = 1000;

/// How many milliseconds at least pass before the next of these lines.
const PAUSE: u64 = 100;

/// How many bytes are a tenth of the unit in which bytes are shown.
const TENTH: u64 = 100_000;

/// How many seconds a run that is ended stands still: the process ends at once.
const STILL: u64 = 60;

/// The line of a terminal that is written over, and what it says; or none, which says nothing and asks no clock.
///
/// The line is written with the terminal's wrapping off, and so ends with the row of a narrow one: what went on in the
/// next row wouldn't be cleared.
#[derive(Drop)]
pub struct Screen<'a, R> {
    rt: &'a R,
    /// How far the run has come.
    progress: &'a Progress,
    /// Whether there is a terminal.
    is_there: bool,
    /// When it began, in milliseconds of the clock.
    start: u64,
    /// When the line was last written.
    last: AtomicU64,
}

/// The time of the clock in milliseconds; 0 if it can't be read.
fn millis<R: Clock>(rt: &R) -> u64 {
    match rt.monotonic() {
        Ok(time) => time
            .as_secs()
            .saturating_mul(1000)
            .saturating_add(time.subsec_millis() as u64),
        Err(_) => 0,
    }
}

/// Leaves nothing of the line of a terminal that shows how far a run has come, if there is one.
pub(crate) fn clear<R: Eprint>(rt: &R, progress: &Progress) {
    if progress.has_line.swap(false, Ordering::SeqCst) {
        let _ = eprint!(rt; "\r\u{1b}[K");
    }
}

impl<'a, R: Clock + Eprint> Screen<'a, R> {
    /// A terminal on which nothing is shown yet of this run, if there is one.
    pub fn new(rt: &'a R, progress: &'a Progress, is_there: bool) -> Screen<'a, R> {
        Screen {
            rt,
            progress,
            is_there,
            start: if is_there { millis(rt) } else { 0 },
            last: AtomicU64::new(0),
        }
    }

    /// Whether it is time to show what has come; if so, the next time is later.
    fn is_due(&self) -> bool {
        let now = millis(self.rt);
        let last = self.last.load(Ordering::SeqCst);
        if now < self.start.saturating_add(PATIENCE) || now < last.saturating_add(PAUSE) {
            return false;
        }
        self.may_show(now)
    }

    /// Whether a line may be shown at this time: the run isn't ended. If so, the next one comes later.
    fn may_show(&self, now: u64) -> bool {
        if self.progress.is_ended() {
            return false;
        }
        self.last.store(now, Ordering::SeqCst);
        self.progress.has_line.store(true, Ordering::SeqCst);
        true
    }

    /// A file of this many bytes, or 0 if that isn't known, begins to be read.
    pub(crate) fn begin(&self, size: u64) {
        self.progress.begin(size);
    }

    /// This many more bytes are read.
    pub(crate) fn advance(&self, count: u64) {
        self.progress.advance(count);
        if self.is_there && self.is_due() {
            self.show_bytes();
        }
    }

    /// Shows how many bytes are read.
    fn show_bytes(&self) {
        let read = self.progress.read.load(Ordering::SeqCst);
        let whole = self.progress.whole.load(Ordering::SeqCst);
        let (units, tenths) = (read / TENTH / 10, read / TENTH % 10);
        if whole < read {
            let _ = eprint!(self.rt; "\r\u{1b}[K\u{1b}[?7lreading: {units}.{tenths} MB\u{1b}[?7h");
        } else {
            let (of_units, of_tenths) = (whole / TENTH / 10, whole / TENTH % 10);
            let _ = eprint!(self.rt;
                "\r\u{1b}[K\u{1b}[?7lreading: {units}.{tenths} of {of_units}.{of_tenths} MB\u{1b}[?7h"
            );
        }
    }

    /// A file is read as far as it will be. After the last one nothing is left of the line.
    pub(crate) fn end(&self) {
        if self.progress.end() {
            self.clear();
        }
    }

    /// A walk has come to this level.
    pub(crate) fn reach(&self, level: Reached) {
        self.progress.reach(level);
        if self.is_there && self.is_due() {
            let Reached {
                number,
                last,
                cuts,
                is_whole: _,
            } = level;
            let _ = eprint!(self.rt;
                "\r\u{1b}[K\u{1b}[?7llevel {number} of {last}: {cuts} cuts\u{1b}[?7h"
            );
        }
    }

    /// A predicate is answered beyond the width: this one, of so many. It is shown at once: however long that takes,
    /// nothing comes meanwhile that could be shown.
    pub(crate) fn ask(&self, number: u64, count: u64) {
        self.progress.ask(number, count);
        if self.is_there && self.may_show(millis(self.rt)) {
            let _ = eprint!(self.rt;
                "\r\u{1b}[K\u{1b}[?7lbeyond the width: predicate {number} of {count}\u{1b}[?7h"
            );
        }
    }

    /// Leaves nothing of the line, if there is one.
    pub(crate) fn clear(&self) {
        clear(self.rt, self.progress);
    }

    /// Whether the run may write: it does from now on. If it is ended before its time, it stands still first.
    pub(crate) fn may_write(&self) -> bool {
        let may = self.progress.may_write();
        if !may {
            self.rt.sleep(Duration::from_secs(STILL));
        }
        may
    }

    /// What the run has written is whole so far, and it may be ended.
    pub(crate) fn pause(&self) {
        self.progress.pause();
    }
}
