//! The register itself: a history that threads share, under a lock of one word.
ghost use Rattle.std.specs.Prelude.{◌≡◌, ◌<◌, [], true, false, IfOk, IfErr, All, length, map};
ghost use mathlib.Core.List.{IsPrefix};
ghost use Rattle.def_format.specs.Histories.{allows, IsLegal};
ghost use Rattle.pd_register.specs.Views.{step_view, rows_view, AreRowsOf, HasRow};
ghost use Rattle.pd_register.specs.LockRule.{Takes, MayGive, Looks, ShowsRows, after_giving, history_in_hand};

use crate::history::History;
use crate::rule::{Collects, Deals, GivesBack, LockRule, TableSeat, TriesLock};
use crate::seat::Seat;
use crate::snapshot::Snapshot;
use crate::step::Step;
use crate::view::View;
use crate::watcher::Watcher;
use atomic_table::{Refused, Table};
use std::alloc::{AllocError, Global};
use std::hint::spin_loop;
use std::sync::Wait;
use std::sync::atomic::{AtomicU64, Ordering};

/// How often the lock is asked for before the thread sleeps: a post takes some tens of nanoseconds, and to sleep and to
/// be woken takes many times that.
const SPINS: u64 = 100;

/// The history of the steps of some streams, which seats add to and look at.
#[derive(Drop)]
pub struct Register {
    table: Table<History, View, u64, LockRule, Global>,
    // How many threads sleep until the lock is free, or are about to: if there are none, nobody has to be woken.
    sleepers: AtomicU64,
    ghost sized: { (table.shared.table_id.words ≡ 1) × (table.shared.table_id.slots ≡ 1) },
}

impl Register {
    ghost use Rattle.pd_register.specs.Seats.{
      stream_count,
      stream_of,
      posted_row,
      seen_history,
      watched_history,
      IsSeatOf,
      IsSameSeat,
      IsWatcherOf,
      AreSeats,
      IsFresh,
      IsPosted,
    };

    /// A register of this many streams that have made no step, their seats in order, and a watcher.
    pub fn new(alloc: Global, streams: u64) -> Result<(Register, Vec<Seat>, Watcher), AllocError>
        ensures register { IfOk result (λ r. stream_count r.0 ≡ streams) }
        ensures seats { IfOk result (λ r. AreSeats r.0 r.1.items × All IsFresh r.1.items) }
        ensures watcher { IfOk result (λ r. IsWatcherOf r.0 r.2 × (watched_history r.2 ≡ [])) }
    {
        let mut slots = Vec::with_capacity(alloc, 1)?;
        slots.push_reserved(History::new(alloc, streams)?);
        let (table, mut dealer) = match Table::new(alloc, &[0], slots, &streams) {
            Ok(made) => made,
            Err(Refused { slots: _ }) => return Err(AllocError),
        };
        let mut seats = Vec::new(alloc);
        for stream in 0..streams {
            let inner = table.shared.split_seat::<Deals>(&mut dealer);
            seats.push(Seat::fresh(inner, stream))?;
        }
        let sleepers = AtomicU64::new(0);
        Ok((
            Register { table, sleepers },
            seats,
            Watcher { inner: dealer },
        ))
    }

    /// Adds the step of the seat's stream, and gives the length of the history after it. The history that the seat has
    /// then seen begins with all that it had seen. Out of memory, the step isn't made.
    pub fn post<R: Wait>(&self, rt: &R, me: &mut Seat, step: Step) -> Result<u64, AllocError>
        requires own { IsSeatOf self.now me.old }
        requires allowed { allows (posted_row me.old) (step_view step) ≡ true }
        ensures own { IsSameSeat self.now me.old me.new }
        ensures later { IsPrefix (seen_history me.old) (seen_history me.new) }
        ensures legal { IsLegal (stream_count self.now) (seen_history me.new) }
        ensures posted { IfOk result (λ n. IsPosted me.old (step_view step) me.new n) }
        ensures refused { IfErr result (λ _. posted_row me.new ≡ posted_row me.old) }
    {
        self.lock(rt, &mut me.inner);
        let held = me.inner.slot_mut(&self.table.shared, 0);
        let answer = held.post(me.stream, step);
        self.unlock(&mut me.inner);
        if answer.is_ok() {
            me.row = me.row.after(step);
        }
        answer
    }

    /// The rows of all streams in a legal history, which begins with all that the seat had seen. The row of the seat's
    /// own stream is that of its posts.
    pub fn status<R: Wait>(&self, rt: &R, me: &mut Seat) -> Result<Snapshot, AllocError>
        requires own { IsSeatOf self.now me.old }
        ensures own { IsSameSeat self.now me.old me.new }
        ensures row { posted_row me.new ≡ posted_row me.old }
        ensures later { IsPrefix (seen_history me.old) (seen_history me.new) }
        ensures legal { IsLegal (stream_count self.now) (seen_history me.new) }
        ensures shown { IfOk result (λ s. AreRowsOf (stream_count self.now) (seen_history me.new) s.rows.items) }
        ensures mine { IfOk result (λ s. HasRow s.rows.items (stream_of me.old) (posted_row me.old)) }
    {
        self.look(rt, &mut me.inner)
    }

    /// The rows of all streams in a legal history, which begins with all that the watcher had seen.
    pub fn watch<R: Wait>(&self, rt: &R, me: &mut Watcher) -> Result<Snapshot, AllocError>
        requires own { IsWatcherOf self.now me.old }
        ensures own { IsWatcherOf self.now me.new }
        ensures later { IsPrefix (watched_history me.old) (watched_history me.new) }
        ensures legal { IsLegal (stream_count self.now) (watched_history me.new) }
        ensures shown { IfOk result (λ s. AreRowsOf (stream_count self.now) (watched_history me.new) s.rows.items) }
    {
        self.look(rt, &mut me.inner)
    }

    /// The rows of all seats' posts. It waits for nobody, since the caller has all seats.
    pub fn close(self, seats: Vec<Seat>, watcher: Watcher) -> Snapshot
        requires seats { AreSeats self seats.items }
        requires watcher { IsWatcherOf self watcher }
        ensures rows { rows_view result.rows.items ≡ map posted_row seats.items }
        ensures count { length result.rows.items ≡ stream_count self }
    {
        let Watcher { inner: mut all } = watcher;
        let mut seats = seats;
        while let Some(seat) = seats.pop() {
            let Seat {
                inner,
                stream: _,
                row: _,
            } = seat;
            self.table.shared.join_seat::<Collects>(&mut all, inner);
        }
        let Register { table, sleepers: _ } = self;
        let mut closed = table.close_with(all);
        let History { posts: _, rows } = closed.take(0);
        closed.free();
        Snapshot { rows }
    }

    // Waits for the lock, and takes the slot.
    fn lock<R: Wait>(&self, rt: &R, seat: &mut TableSeat)
        requires own { seat.old.table_id ≡ self.now.table.shared.table_id }
        requires idle { (0 < length seat.old.me.0.rows) × (seat.old.me.0.holds ≡ false) }
        ensures own { (seat.new.table_id ≡ seat.old.table_id) × (seat.new.id ≡ seat.old.id) }
        ensures taken { Takes seat.old.me seat.new.me }
    {
        let mut spins = 0;
        for _ in rt.forever() {
            let found = self
                .table
                .shared
                .compare_exchange::<TriesLock>(seat, 0, 0, 1);
            if found == 0 {
                return;
            }
            if spins < SPINS {
                spins += 1;
                spin_loop();
            } else {
                self.sleep(rt);
            }
        }
        unreachable!()
    }

    // Sleeps until the lock is given back, and may wake for no reason. Who gives it back after this thread is counted
    // sees that someone sleeps; if it was given back before, there is no sleep.
    fn sleep<R: Wait>(&self, rt: &R) {
        self.sleepers.fetch_add(1, Ordering::SeqCst);
        self.table.shared.park(rt, 0, 1);
        self.sleepers.fetch_sub(1, Ordering::SeqCst);
    }

    // Gives the slot back, and wakes one who sleeps, if there is one.
    fn unlock(&self, seat: &mut TableSeat)
        requires own { seat.old.table_id ≡ self.now.table.shared.table_id }
        requires held { MayGive seat.old.me }
        ensures own { (seat.new.table_id ≡ seat.old.table_id) × (seat.new.id ≡ seat.old.id) }
        ensures given { seat.new.me ≡ after_giving seat.old.me (history_in_hand seat.old.me.1) }
    {
        self.table.shared.store::<GivesBack>(seat, 0, 0);
        if self.sleepers.load(Ordering::SeqCst) > 0 {
            self.table.shared.wake_one(0);
        }
    }

    // The rows of all streams, as they stand under the lock.
    fn look<R: Wait>(&self, rt: &R, seat: &mut TableSeat) -> Result<Snapshot, AllocError>
        requires own { seat.old.table_id ≡ self.now.table.shared.table_id }
        requires idle { (0 < length seat.old.me.0.rows) × (seat.old.me.0.holds ≡ false) × (seat.old.me.1 ≡ []) }
        ensures own { (seat.new.table_id ≡ seat.old.table_id) × (seat.new.id ≡ seat.old.id) }
        ensures looks { Looks seat.old.me seat.new.me }
        ensures shown { IfOk result (λ s. ShowsRows seat.old.me seat.new.me s.rows.items) }
    {
        self.lock(rt, seat);
        let answer = seat.slot_mut(&self.table.shared, 0).snapshot();
        self.unlock(seat);
        answer
    }
}
