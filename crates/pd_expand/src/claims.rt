//! The blocks of a level, handed out to workers by one shared word.
ghost use Rattle.std.specs.Prelude.{◌≡◌, ◌^◌, ◌<◌, ◌≤◌, [], ◌∷◌, ◌++◌, IfOk, All, length};
ghost use Rattle.def_format.specs.Limits.{worker_limit};

use crate::claim_seat::ClaimSeat;
use crate::rule::{ClaimRule, Collects, Deals, DrawsNext};
use crate::view::{View, Work};
use atomic_table::Table;
use std::alloc::{AllocError, Global};

/// Hands out the numbers from 0 on, each of them once.
#[derive(Drop)]
pub struct Claims {
    table: Table<(), View, Work, ClaimRule, Global>,
    ghost sized: { (table.shared.table_id.words ≡ 1) × (table.shared.table_id.slots ≡ 0) },
    ghost lawful: { (table.shared.key.blocks ≤ 2 ^ 63) × (0 < table.shared.key.workers)
        × (table.shared.key.workers ≤ worker_limit) },
}

impl Claims {
    ghost use Rattle.pd_expand.specs.Claims.{AreWhole, IsDone, IsSeatOf, block_count, drawn, worker_count};

    /// Claims of this many blocks, at most `2^63`, and a seat for each of 1 to 16 workers, none of which drew a number.
    ///
    /// # Errors
    /// An allocation was refused.
    pub fn new(
        alloc: Global,
        blocks: u64,
        workers: u64,
    ) -> Result<(Claims, Vec<ClaimSeat>), AllocError>
        requires blocks { blocks ≤ 2 ^ 63 }
        requires workers { (0 < workers) × (workers ≤ worker_limit) }
        ensures claims { IfOk result (λ r. (block_count r.0 ≡ blocks) × (worker_count r.0 ≡ workers)) }
        ensures seats { IfOk result (λ r. (length r.1.items ≡ workers)
            × All (λ s. IsSeatOf r.0 s × (drawn s ≡ [])) r.1.items) }
    {
        let work = Work { blocks, workers };
        let (table, mut dealer) = Table::of_words(alloc, &[0], &work)?;
        let mut seats = Vec::new(alloc);
        for _ in 1..workers {
            let seat = table.shared.split_seat::<Deals>(&mut dealer);
            seats.push(ClaimSeat::fresh(seat, blocks))?;
        }
        seats.push(ClaimSeat::fresh(dealer, blocks))?;
        Ok((Claims { table }, seats))
    }

    /// The least number that no call has given yet. It goes to the end of the seat's list.
    pub fn draw(&self, me: &mut ClaimSeat) -> u64
        requires own { IsSeatOf self.now me.old }
        requires open { ¬ IsDone me.old }
        ensures own { IsSeatOf self.now me.new }
        ensures drawn { drawn me.new ≡ drawn me.old ++ result ∷ [] }
    {
        let found = self
            .table
            .shared
            .fetch_add::<DrawsNext>(&mut me.inner, 0, 1);
        me.is_done = found >= me.blocks;
        found
    }

    /// Ends the claims. Each block was drawn once, by one of the seats: these are all, and each is done.
    pub fn close(self, seats: Vec<ClaimSeat>)
        requires all { length seats.items ≡ worker_count self }
        requires own { All (λ s. IsSeatOf self s × IsDone s) seats.items }
        ensures whole { AreWhole (block_count self) seats.items }
    {
        let mut seats = seats;
        let Some(last) = seats.pop() else {
            return;
        };
        let ClaimSeat {
            inner: mut all,
            blocks: _,
            is_done: _,
        } = last;
        while let Some(next) = seats.pop() {
            let ClaimSeat {
                inner,
                blocks: _,
                is_done: _,
            } = next;
            self.table.shared.join_seat::<Collects>(&mut all, inner);
        }
        let Claims { table } = self;
        table.close_with(all).free();
    }
}
