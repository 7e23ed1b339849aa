//! Several workers that expand the blocks of a level.
ghost use Rattle.pd_expand.specs.Claims.{IsDone, IsSeatOf, block_count, drawn, times_in_all, worker_count};
ghost use Rattle.pd_expand.specs.ClaimRule.{times};
ghost use Rattle.pd_expand.specs.Parts.{AreBlocksOf, ArePartsOf};
ghost use Rattle.def_model.specs.Cuts.{IsConsistent};
ghost use Rattle.std.specs.Prelude.{◌≡◌, ◌++◌, ℕ, List, [], ◌∷◌, All, IfOk, IsOk, length};
ghost use Rattle.std.specs.Thread.{IsSync};

use crate::blocks::expand_block;
use crate::claim_seat::ClaimSeat;
use crate::claims::Claims;
use crate::part::Part;
use pd_clock::Computation;
use pd_level::{Gate, Level};
use std::alloc::{AllocError, Global};
use std::sync::Wait;
use std::thread::{Threads, join_mut};

/// The parts that were kept, if memory didn't run out.
pub(crate) type Parts = Result<Vec<Part>, AllocError>;

/// The parts with that of the number which was drawn, if it is a block's. Once memory has run out nothing is expanded.
fn with_block<G: Gate>(
    alloc: Global,
    computation: &Computation<'_>,
    level: &Level,
    gate: &G,
    blocks: u64,
    block: u64,
    parts: Parts,
) -> Parts
    requires cuts { All (IsConsistent computation.now.events) level.now.cuts }
    requires blocks { AreBlocksOf blocks (length level.now.cuts) }
    ensures parts { (numbers : List ℕ)
        → IfOk parts (λ old. ArePartsOf computation.now.events level.now blocks (λ x. times x numbers) old.items)
        → IfOk result (λ new. ArePartsOf computation.now.events level.now blocks
        (λ x. times x (numbers ++ block ∷ [])) new.items) }
{
    if block >= blocks {
        return parts;
    }
    gate.pass(block);
    let mut parts = parts?;
    let part = expand_block(alloc, computation, level, block)?;
    parts.push(part)?;
    Ok(parts)
}

/// One worker: draws until its seat is done, and keeps the parts of the blocks that it drew.
fn expand_drawn<T: Wait, G: Gate>(
    rt: &T,
    alloc: Global,
    computation: &Computation<'_>,
    level: &Level,
    claims: &Claims,
    gate: &G,
    seat: &mut ClaimSeat,
) -> Parts
    requires cuts { All (IsConsistent computation.now.events) level.now.cuts }
    requires blocks { AreBlocksOf (block_count claims.now) (length level.now.cuts) }
    requires own { IsSeatOf claims.now seat.old }
    requires fresh { drawn seat.old ≡ [] }
    ensures own { IsSeatOf claims.now seat.new }
    ensures done { IsDone seat.new }
    ensures parts { IfOk result (λ parts. ArePartsOf computation.now.events level.now (block_count claims.now)
        (λ x. times_in_all x (seat.new ∷ [])) parts.items) }
{
    let blocks = seat.blocks();
    let mut parts = Ok(Vec::new(alloc));
    for _ in rt.forever() {
        if seat.done() {
            break;
        }
        let block = claims.draw(seat);
        parts = with_block(alloc, computation, level, gate, blocks, block, parts);
    }
    parts
}

/// The parts of two halves of the workers, one after the other.
fn both_halves(first: Parts, last: Parts) -> Parts
    ensures ok { IfOk result (λ parts. IfOk first (λ f. IfOk last (λ l. parts.items ≡ f.items ++ l.items))) }
    ensures both { IsOk result → IsOk first × IsOk last }
{
    let mut parts = first?;
    let mut others = last?;
    parts.append(&mut others)?;
    Ok(parts)
}

/// The parts that the workers keep: each draws with a seat of its own, on its own thread. They go by halves, one of
/// them in a new thread.
pub(crate) fn expand_halves<T: Threads + Wait + Sync, G: Gate + Sync>(
    rt: &T,
    alloc: &Global,
    computation: &Computation<'_>,
    level: &Level,
    claims: &Claims,
    gate: &G,
    seats: &mut [ClaimSeat],
) -> Parts
    requires cuts { All (IsConsistent computation.now.events) level.now.cuts }
    requires blocks { AreBlocksOf (block_count claims.now) (length level.now.cuts) }
    requires own { All (λ s. IsSeatOf claims.now s × (drawn s ≡ [])) seats.old }
    ensures len { length seats.new ≡ length seats.old }
    ensures done { All (λ s. IsSeatOf claims.now s × IsDone s) seats.new }
    ensures parts { IfOk result (λ parts. ArePartsOf computation.now.events level.now (block_count claims.now)
        (λ x. times_in_all x seats.new) parts.items) }
{
    if seats.len() == 0 {
        return Ok(Vec::new(*alloc));
    }
    if seats.len() == 1 {
        return expand_drawn(rt, *alloc, computation, level, claims, gate, &mut seats[0]);
    }
    let middle = seats.len() / 2;
    let (first_seats, last_seats) = seats.split_at_mut(middle);
    let (first, last) = join_mut(
        rt,
        &mut || -> Parts
            requires { IsSync T.row × All (IsConsistent computation.now.events) level.now.cuts
                × AreBlocksOf (block_count claims.now) (length level.now.cuts)
                × All (λ s. IsSeatOf claims.now s × (drawn s ≡ [])) first_seats.now }
            ensures { (length first_seats.exit.now ≡ length first_seats.entry.now)
                × All (λ s. IsSeatOf claims.entry.now s × IsDone s) first_seats.exit.now
                × IfOk result (λ parts. ArePartsOf computation.entry.now.events level.entry.now
                (block_count claims.entry.now) (λ x. times_in_all x first_seats.exit.now) parts.items) }
        { expand_halves(rt, alloc, computation, level, claims, gate, first_seats) },
        &mut || -> Parts
            requires { IsSync T.row × All (IsConsistent computation.now.events) level.now.cuts
                × AreBlocksOf (block_count claims.now) (length level.now.cuts)
                × All (λ s. IsSeatOf claims.now s × (drawn s ≡ [])) last_seats.now }
            ensures { (length last_seats.exit.now ≡ length last_seats.entry.now)
                × All (λ s. IsSeatOf claims.entry.now s × IsDone s) last_seats.exit.now
                × IfOk result (λ parts. ArePartsOf computation.entry.now.events level.entry.now
                (block_count claims.entry.now) (λ x. times_in_all x last_seats.exit.now) parts.items) }
        { expand_halves(rt, alloc, computation, level, claims, gate, last_seats) },
    );
    both_halves(first, last)
}

/// The parts of all blocks, each of which is drawn by one of the seats. These are all seats of the claims, none of
/// which drew a number yet.
pub(crate) fn expand_all<T: Threads + Wait + Sync, G: Gate + Sync>(
    rt: &T,
    alloc: Global,
    computation: &Computation<'_>,
    level: &Level,
    claims: Claims,
    seats: Vec<ClaimSeat>,
    gate: &G,
) -> Parts
    requires cuts { All (IsConsistent computation.now.events) level.now.cuts }
    requires blocks { AreBlocksOf (block_count claims) (length level.now.cuts) }
    requires all { length seats.items ≡ worker_count claims }
    requires own { All (λ s. IsSeatOf claims s × (drawn s ≡ [])) seats.items }
    ensures parts { IfOk result (λ parts. ArePartsOf computation.now.events level.now (block_count claims)
        (λ block. 1) parts.items) }
{
    let mut seats = seats;
    let lent = seats.as_mut_slice();
    let parts = expand_halves(rt, &alloc, computation, level, &claims, gate, lent);
    claims.close(seats);
    parts
}
