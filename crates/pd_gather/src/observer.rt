//! Who watches the register while streams are read.
use pd_register::{Register, Watcher};
use std::sync::Wait;
use std::thread::Threads;

/// Who watches the register while the streams of a session are read.
pub trait Observer {
    ghost use mathlib.Core.List.{IsPrefix};
    ghost use Rattle.pd_register.specs.Seats.{IsWatcherOf, watched_history};

    /// Looks at the register as often as it likes, and returns: the call that reads the streams waits for it. It leaves
    /// the watcher that it was lent in place; what the watcher has seen has only grown.
    fn run<T: Threads + Wait + Sync>(&self, rt: &T, register: &Register, watcher: &mut Watcher)
        requires own { IsWatcherOf register.now watcher.old }
        ensures own { IsWatcherOf register.now watcher.new }
        ensures later { IsPrefix (watched_history watcher.old) (watched_history watcher.new) };
}

/// An observer that never looks.
#[derive(Clone, Copy)]
pub struct NoObserver;

impl Observer for NoObserver {
    fn run<T: Threads + Wait + Sync>(
        &self,
        _rt: &T,
        _register: &Register,
        _watcher: &mut Watcher,
    ) {}
}
