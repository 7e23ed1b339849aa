//! A run that is waited for no longer than its time.
use super::progress::Progress;
use super::time_over::{Limited, report_time};
use std::alloc::Global;
use std::io::{Eprint, Write};
use std::sync::{Condvar, CondvarTimeouts, Mutex, Wait, WaitMethods};
use std::time::{Clock, Duration};

/// How many milliseconds pass until it is looked again whether a line is whole.
const LINE: u64 = 5;

/// The line that ends the lines of a test whose time is over.
const NO_MORE: &[u8] = b"time over: no more runs are judged\n";

/// A run in a thread of its own, as another thread sees it.
#[derive(Drop)]
pub struct TimedRun {
    /// How far it has come.
    pub progress: Progress,
    is_over: Mutex<bool>,
    news: Condvar,
}

impl TimedRun {
    /// One that hasn't begun. If nobody looks how far it comes, that isn't noted.
    pub fn new(is_watched: bool) -> TimedRun {
        TimedRun {
            progress: Progress::new(is_watched),
            is_over: Mutex::new(false),
            news: Condvar::new(),
        }
    }

    /// Wakes who waits for the run, which is over.
    pub fn end<R: Wait>(&self, rt: &R) {
        *self.is_over.lock(rt) = true;
        self.news.notify_all();
    }

    /// Waits until the run is over, no longer than this. It gives whether it is.
    fn is_over_in<R: Wait + Clock>(&self, rt: &R, time: Duration) -> bool {
        let guard = self.is_over.lock(rt);
        let (guard, ended) = self
            .news
            .wait_timeout_while(rt, guard, time, |is_over: &mut bool| !*is_over);
        drop(guard);
        !ended.timed_out()
    }

    /// Waits until the run is over, or may be ended because its time is. It gives whether it is over.
    fn is_over_in_time<R: Wait + Clock>(&self, rt: &R, limited: &Limited) -> bool {
        if self.is_over_in(rt, limited.time()) {
            return true;
        }
        for _ in rt.forever() {
            if self.progress.may_end() {
                return false;
            }
            if self.is_over_in(rt, Duration::from_millis(LINE)) {
                return true;
            }
        }
        true
    }

    /// Waits until the run is over, or its time is, and gives whether the run is to be ended: then that is reported,
    /// and nothing is written any more by the run. A run that has begun to write what it writes whole is waited for.
    pub fn is_out_of_time<R: Wait + Clock + Eprint, O: Write, E: Write>(
        &self,
        rt: &R,
        alloc: Global,
        limited: &Limited,
        output: &mut O,
        errors: &mut E,
    ) -> bool {
        if self.is_over_in_time(rt, limited) {
            return false;
        }
        if limited.is_test {
            let _ = output.write_all(NO_MORE);
            let _ = output.flush();
        }
        report_time(rt, alloc, limited, &self.progress, errors);
        true
    }
}
