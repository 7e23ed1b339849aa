//! The next level, by several workers.
ghost use Rattle.def_format.specs.Limits.{worker_limit};
ghost use Rattle.def_model.specs.Answers.{IsListOf, MoreThan};
ghost use Rattle.def_model.specs.Cuts.{IsConsistent, IsNextOf};
ghost use Rattle.std.specs.Prelude.{◌≡◌, ◌+◌, ◌<◌, ◌≤◌, All, IfOk, length, min};

use crate::blocks::block_count;
use crate::claims::Claims;
use crate::union::next_of_parts;
use crate::workers::expand_all;
use pd_clock::Computation;
use pd_level::{Gate, Level, LevelFault};
use std::alloc::Global;
use std::sync::Wait;
use std::thread::Threads;

/// The cuts that have one event more than one of the level's, in lexicographic order: at most `width` of them, as
/// `Level::next` gives them. They are found by 1 to 16 workers, each on a thread of its own, which are always started.
/// A worker calls the gate after it drew a block and before it expands it. If the system refuses a thread, its work is
/// done on another one.
///
/// # Errors
/// `Wide` says that there are more, and `Memory` that an allocation was refused.
pub fn next_level<T: Threads + Wait + Sync, G: Gate + Sync>(
    rt: &T,
    alloc: Global,
    computation: &Computation<'_>,
    level: &Level,
    width: u64,
    workers: u64,
    gate: &G,
) -> Result<Level, LevelFault>
    requires cuts { All (IsConsistent computation.now.events) level.now.cuts }
    requires wide { 1 ≤ width }
    requires workers { (0 < workers) × (workers ≤ worker_limit) }
    ensures list { IfOk result (λ next. IsListOf (IsNextOf computation.now.events level.now.cuts) next.cuts) }
    ensures narrow { IfOk result (λ next. length next.cuts ≤ width) }
    ensures number { IfOk result (λ next. next.number ≡ min (level.now.number + 1) 18446744073709551615) }
    ensures wide { result ≡ Err LevelFault.Wide → MoreThan width (IsNextOf computation.now.events level.now.cuts) }
{
    let blocks = block_count(level.len());
    let (claims, seats) = Claims::new(alloc, blocks, workers)?;
    let parts = expand_all(rt, alloc, computation, level, claims, seats, gate)?;
    let next = next_of_parts(alloc, computation, level, blocks, parts)?;
    next.within(width)
}
