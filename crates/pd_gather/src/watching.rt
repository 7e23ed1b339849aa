//! The streams of a session, each read on its own thread, while an observer watches them on one more.
ghost use mathlib.Core.List.{IsPrefix};
ghost use Rattle.def_format.specs.Histories.{fresh_row};
ghost use Rattle.pd_gather.specs.Gathering.{AreReady, AreSameSeats, HasGathered, KeepsSeen, LeavesSeats};
ghost use Rattle.pd_gather.specs.ReadStreams.{AreReadOf};
ghost use Rattle.pd_gather.specs.Views.{ReadingFits, results_view};
ghost use Rattle.pd_register.specs.Seats.{AreSeats, IsWatcherOf, posted_row, watched_history};
ghost use Rattle.pd_spec.specs.Views.{document_view};
ghost use Rattle.std.specs.Prelude.{◌≡◌, false, All, IfOk, length, map, vec_len};
ghost use Rattle.std.specs.Thread.{IsSync};

use super::byte_source::ByteSource;
use super::gather_fault::GatherFault;
use super::gathered::Gathered;
use super::gathering::{Readings, gather, read_halves};
use super::observer::Observer;
use pd_register::{Register, Seat, Watcher};
use pd_spec::Spec;
use std::alloc::Global;
use std::sync::Wait;
use std::thread::{Threads, join_mut};

/// What the streams give, while the observer runs. It has the new thread: if the system refuses that, it runs last, and
/// no stream waits for it.
fn read_beside<T: Threads + Wait + Sync, R: ByteSource + Send, O: Observer + Sync>(
    rt: &T,
    alloc: &Global,
    spec: &Spec,
    register: &Register,
    readers: &mut [R],
    seats: &mut [Seat],
    watcher: &mut Watcher,
    observer: &O,
) -> Readings
    requires ready { AreReady R.has_ended register.now readers.old seats.old }
    requires watcher { IsWatcherOf register.now watcher.old }
    ensures same { AreSameSeats register.now seats.old seats.new }
    ensures seen { KeepsSeen seats.old seats.new }
    ensures gathered { IfOk result (λ readings. HasGathered (document_view spec.now).names
        (map R.left readers.old) readings.items seats.new) }
    ensures left { LeavesSeats (document_view spec.now).names (map R.left readers.old) seats.new }
    ensures watcher { IsWatcherOf register.now watcher.new }
    ensures later { IsPrefix (watched_history watcher.old) (watched_history watcher.new) }
{
    let (_, readings) = join_mut(
        rt,
        &mut ||
            requires { IsSync T.row × IsWatcherOf register.now watcher.now }
            ensures { IsWatcherOf register.entry.now watcher.exit.now
                × IsPrefix (watched_history watcher.entry.now) (watched_history watcher.exit.now) }
        { observer.run(rt, register, watcher) },
        &mut || -> Readings
            requires { IsSync T.row × AreReady R.has_ended register.now readers.now seats.now }
            ensures { AreSameSeats register.entry.now seats.entry.now seats.exit.now
                × IfOk result (λ readings. HasGathered (document_view spec.entry.now).names
                (map R.left readers.entry.now) readings.items seats.exit.now)
                × KeepsSeen seats.entry.now seats.exit.now
                × LeavesSeats (document_view spec.entry.now).names (map R.left readers.entry.now) seats.exit.now }
        { read_halves(rt, alloc, spec, register, readers, seats) },
    );
    readings
}

/// Reads the streams of a session as `gather` does, while the observer runs on one thread more. It returns once all
/// threads are joined, the observer's too. It gives the readings of what the readers gave, whatever the observer does.
///
/// # Errors
/// If memory runs out, for one stream or for several; the seats keep their posts. Each stream was then read, or was
/// read in part: its seat's posts are the first of those that the bytes read until then lead to, without the end or
/// the fault. What each seat has seen grows, as it does without an error.
pub fn gather_watched<T: Threads + Wait + Sync, R: ByteSource + Send + Drop, O: Observer + Sync>(
    rt: &T,
    alloc: Global,
    spec: &Spec,
    readers: Vec<R>,
    register: &Register,
    seats: &mut [Seat],
    watcher: &mut Watcher,
    observer: &O,
) -> Result<Gathered, GatherFault>
    requires seats { AreSeats register.now seats.old }
    requires fresh { All (λ s. posted_row s ≡ fresh_row) seats.old }
    requires one_each { vec_len readers ≡ length seats.old }
    requires open { All (λ r. R.has_ended r ≡ false) readers.items }
    requires watcher { IsWatcherOf register.now watcher.old }
    ensures seats { AreSeats register.now seats.new }
    ensures seen { KeepsSeen seats.old seats.new }
    ensures streams { IfOk result (λ gathered. gathered.streams ≡ vec_len readers) }
    ensures read { IfOk result (λ gathered. AreReadOf (document_view spec.now).names
        (map R.left readers.items) (results_view gathered.readings.items) (map posted_row seats.new)) }
    ensures fit { IfOk result (λ gathered. All (ReadingFits (document_view spec.now).names) gathered.readings.items) }
    ensures left { LeavesSeats (document_view spec.now).names (map R.left readers.items) seats.new }
    ensures watcher { IsWatcherOf register.now watcher.new }
    ensures later { IsPrefix (watched_history watcher.old) (watched_history watcher.new) }
{
    let mut readers = readers;
    let streams = readers.len() as u64;
    let lent = readers.as_mut_slice();
    let readings = read_beside(rt, &alloc, spec, register, lent, seats, watcher, observer)?;
    Ok(Gathered { streams, readings })
}

/// Reads the streams of a session, while the observer runs if there is one.
pub(super) fn gather_by<T: Threads + Wait + Sync, R: ByteSource + Send + Drop, O: Observer + Sync>(
    rt: &T,
    alloc: Global,
    spec: &Spec,
    readers: Vec<R>,
    register: &Register,
    seats: &mut [Seat],
    watcher: &mut Watcher,
    observer: Option<&O>,
) -> Result<Gathered, GatherFault>
    requires seats { AreSeats register.now seats.old }
    requires fresh { All (λ s. posted_row s ≡ fresh_row) seats.old }
    requires one_each { vec_len readers ≡ length seats.old }
    requires open { All (λ r. R.has_ended r ≡ false) readers.items }
    requires watcher { IsWatcherOf register.now watcher.old }
    ensures seats { AreSeats register.now seats.new }
    ensures seen { KeepsSeen seats.old seats.new }
    ensures streams { IfOk result (λ gathered. gathered.streams ≡ vec_len readers) }
    ensures read { IfOk result (λ gathered. AreReadOf (document_view spec.now).names
        (map R.left readers.items) (results_view gathered.readings.items) (map posted_row seats.new)) }
    ensures fit { IfOk result (λ gathered. All (ReadingFits (document_view spec.now).names) gathered.readings.items) }
    ensures left { LeavesSeats (document_view spec.now).names (map R.left readers.items) seats.new }
    ensures watcher { IsWatcherOf register.now watcher.new }
{
    match observer {
        Some(observer) => {
            gather_watched(rt, alloc, spec, readers, register, seats, watcher, observer)
        }
        None => gather(rt, alloc, spec, readers, register, seats),
    }
}
