//! Shows watchers how far the streams of a session are read.
ghost use Rattle.pd_register.specs.Seats.{IsWatcherOf, watched_history};
ghost use mathlib.Core.List.{IsPrefix};

use app_host::Network;
use judge_session::write_snapshot;
use pd_engine::{Observer, Register, Spec, Watcher};
use std::alloc::Global;
use std::io::Write;
use std::sync::Wait;
use std::thread::Threads;

/// Accepts watchers at a place, one after the other, and writes one snapshot of the streams to each.
#[derive(Drop)]
pub struct Watchers<'a, N: Network> {
    /// Where they come from.
    pub network: &'a N,
    /// The place, if any are to be accepted.
    pub listener: Option<N::Listener>,
    /// How many are accepted.
    pub count: u64,
    /// The document of the session.
    pub spec: &'a Spec,
    pub alloc: Global,
}

/// Writes a snapshot of the streams to one watcher. What of it can't be written is left off, and all of it if memory
/// runs out.
fn show<T: Wait, W: Write>(
    rt: &T,
    alloc: Global,
    spec: &Spec,
    register: &Register,
    watcher: &mut Watcher,
    connection: &mut W,
)
    requires own { IsWatcherOf register.now watcher.old }
    ensures own { IsWatcherOf register.now watcher.new }
    ensures later { IsPrefix (watched_history watcher.old) (watched_history watcher.new) }
{
    if let Ok(snapshot) = register.watch(rt, watcher) {
        let _ = write_snapshot(alloc, spec, &snapshot, connection);
    }
}

impl<'a, N: Network> Observer for Watchers<'a, N> {
    /// Waits for as many watchers as are to be accepted, or until one can't be.
    fn run<T: Threads + Wait + Sync>(&self, rt: &T, register: &Register, watcher: &mut Watcher) {
        let Some(listener) = &self.listener else {
            return;
        };
        for _place in 0..self.count {
            let Ok(Some(mut connection)) = self.network.next_connection(listener, None) else {
                return;
            };
            show(
                rt,
                self.alloc,
                self.spec,
                register,
                watcher,
                &mut connection,
            );
        }
    }
}
