//! The blocks of a level.
ghost use Rattle.pd_expand.specs.Limits.{block_length};
ghost use Rattle.pd_expand.specs.Parts.{AreBlocksOf, IsPartOf};
ghost use Rattle.def_model.specs.Cuts.{IsConsistent};
ghost use Rattle.std.specs.Prelude.{◌≡◌, ◌*◌, ◌<◌, All, IfOk, length};

use crate::part::Part;
use pd_clock::Computation;
use pd_level::Level;
use std::alloc::{AllocError, Global};

/// How many cuts a block has, but for a level's last one, which may have fewer.
pub const BLOCK_LENGTH: usize = 64;

/// How many blocks hold this many cuts.
pub fn block_count(cuts: usize) -> u64
    ensures { AreBlocksOf result cuts }
{
    let whole = (cuts / BLOCK_LENGTH) as u64;
    if cuts % BLOCK_LENGTH == 0 {
        whole
    } else {
        whole + 1
    }
}

/// The part of the next level that comes of one block.
///
/// # Errors
/// An allocation was refused.
pub fn expand_block(
    alloc: Global,
    computation: &Computation<'_>,
    level: &Level,
    block: u64,
) -> Result<Part, AllocError>
    requires cuts { All (IsConsistent computation.now.events) level.now.cuts }
    requires within { block_length * block < length level.now.cuts }
    ensures block { IfOk result (λ part. part.block ≡ block) }
    ensures part { IfOk result (IsPartOf computation.now.events level.now) }
{
    let cuts = level.len();
    let from = block as usize * BLOCK_LENGTH;
    let count = BLOCK_LENGTH.min(cuts - from);
    let next = Level::successors_between(alloc, computation, level, from, from + count)?;
    Ok(Part { block, next })
}
