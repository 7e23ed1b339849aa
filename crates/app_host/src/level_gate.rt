//! The gate of a walk over a session in files.
use super::file_source::FileSource;
use app_explain::Widest;
use pd_engine::{Gate, Reached};
use std::sync::atomic::{AtomicU64, Ordering};

/// Lets each block pass, says where the files are how far the judgement has come, and keeps the widest level for an
/// explanation.
#[derive(Drop)]
pub struct LevelGate<'a, F> {
    files: &'a F,
    /// The number of the whole level with the most cuts to which the walk has come.
    number: AtomicU64,
    /// How many cuts that level has; 0 if there is none.
    cuts: AtomicU64,
}

impl<'a, F: FileSource> LevelGate<'a, F> {
    /// The gate of a walk over a session in these files.
    pub fn new(files: &'a F) -> LevelGate<'a, F> {
        LevelGate {
            files,
            number: AtomicU64::new(0),
            cuts: AtomicU64::new(0),
        }
    }

    /// The whole level with the most cuts to which the walk has come.
    pub fn widest(&self) -> Widest {
        Widest {
            number: self.number.load(Ordering::SeqCst),
            cuts: self.cuts.load(Ordering::SeqCst),
        }
    }
}

impl<'a, F: FileSource> Gate for LevelGate<'a, F> {
    fn pass(&self, _block: u64) {}

    /// Whole levels come one after the other, from one thread.
    fn reach(&self, level: Reached) {
        if level.is_whole && level.cuts > self.cuts.load(Ordering::SeqCst) {
            self.number.store(level.number, Ordering::SeqCst);
            self.cuts.store(level.cuts, Ordering::SeqCst);
        }
        self.files.on_level(level);
    }

    fn ask(&self, number: u64, count: u64) {
        self.files.on_predicate(number, count);
    }
}
