//! How far a run has come, and whether it or who ends it may write.
use pd_engine::Reached;
use std::sync::atomic::{AtomicBool, AtomicU64, Ordering};

/// Who may write.
#[derive(Clone, Copy)]
enum Turn {
    /// Nobody writes, and the run isn't ended.
    Free,
    /// The run has begun to write.
    Writing,
    /// The run is ended before its time.
    Ended,
}

/// How far a run has come. Its threads note that, and others may look.
#[derive(Drop)]
pub struct Progress {
    /// Whether anybody looks. If not, nothing is noted.
    is_watched: bool,
    /// Whether a line of progress stands on the terminal.
    pub(crate) has_line: AtomicBool,
    /// How many bytes were read of all files that began to be read.
    pub(crate) read: AtomicU64,
    /// How many bytes these files have, as far as that is known.
    pub(crate) whole: AtomicU64,
    /// How many files are being read.
    pub(crate) open: AtomicU64,
    /// The number of the level to which a walk has come, and 1 more; 0 if none has begun since the last file was read,
    /// or a predicate is answered beyond the width.
    pub(crate) level: AtomicU64,
    /// The number of the last level of that walk.
    pub(crate) last: AtomicU64,
    /// How many cuts the level has.
    pub(crate) cuts: AtomicU64,
    /// The number of the predicate that is answered beyond the width, counted from 1; 0 if none is.
    pub(crate) predicate: AtomicU64,
    /// How many predicates there are.
    pub(crate) predicates: AtomicU64,
    /// The number of a `Turn`.
    turn: AtomicU64,
}

impl Progress {
    /// That of a run that hasn't begun. If nobody looks, nothing is noted.
    pub fn new(is_watched: bool) -> Progress {
        Progress {
            is_watched,
            has_line: AtomicBool::new(false),
            read: AtomicU64::new(0),
            whole: AtomicU64::new(0),
            open: AtomicU64::new(0),
            level: AtomicU64::new(0),
            last: AtomicU64::new(0),
            cuts: AtomicU64::new(0),
            predicate: AtomicU64::new(0),
            predicates: AtomicU64::new(0),
            turn: AtomicU64::new(Turn::Free as u64),
        }
    }

    /// A file of this many bytes, or 0 if that isn't known, begins to be read.
    pub(crate) fn begin(&self, size: u64) {
        if self.is_watched {
            self.whole.fetch_add(size, Ordering::SeqCst);
            self.open.fetch_add(1, Ordering::SeqCst);
            self.level.store(0, Ordering::SeqCst);
            self.predicate.store(0, Ordering::SeqCst);
        }
    }

    /// This many more bytes are read.
    pub(crate) fn advance(&self, count: u64) {
        if self.is_watched {
            self.read.fetch_add(count, Ordering::SeqCst);
        }
    }

    /// A file is read as far as it will be. It gives whether no other one is being read.
    pub(crate) fn end(&self) -> bool {
        self.is_watched && self.open.fetch_sub(1, Ordering::SeqCst) == 1
    }

    /// A walk has come to this level.
    pub(crate) fn reach(&self, level: Reached) {
        if self.is_watched {
            self.last.store(level.last, Ordering::SeqCst);
            self.cuts.store(level.cuts, Ordering::SeqCst);
            self.level
                .store(level.number.saturating_add(1), Ordering::SeqCst);
            self.predicate.store(0, Ordering::SeqCst);
        }
    }

    /// A predicate is answered beyond the width: this one, of so many.
    pub(crate) fn ask(&self, number: u64, count: u64) {
        if self.is_watched {
            self.predicates.store(count, Ordering::SeqCst);
            self.predicate.store(number, Ordering::SeqCst);
            self.level.store(0, Ordering::SeqCst);
        }
    }

    /// Takes the turn, if nobody has it; if somebody has, it gives the number of that.
    fn take_turn(&self, turn: Turn) -> Result<u64, u64> {
        self.turn.compare_exchange(
            Turn::Free as u64,
            turn as u64,
            Ordering::SeqCst,
            Ordering::SeqCst,
        )
    }

    /// Whether the run may write: it does from now on, and isn't ended any more before its time.
    pub(crate) fn may_write(&self) -> bool {
        match self.take_turn(Turn::Writing) {
            Ok(_) => true,
            Err(found) => found == Turn::Writing as u64,
        }
    }

    /// What the run has written is whole so far, and it may be ended.
    pub(crate) fn pause(&self) {
        self.turn.store(Turn::Free as u64, Ordering::SeqCst);
    }

    /// Whether the run is ended before its time: it is from now on, unless it writes.
    pub(crate) fn may_end(&self) -> bool {
        self.take_turn(Turn::Ended).is_ok()
    }

    /// Whether the run is ended before its time.
    pub(crate) fn is_ended(&self) -> bool {
        self.turn.load(Ordering::SeqCst) == Turn::Ended as u64
    }
}
