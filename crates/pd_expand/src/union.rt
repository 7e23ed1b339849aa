//! The parts of a level put together.
ghost use Rattle.pd_expand.specs.Parts.{AreBlocksOf, ArePartsOf, IsPartOf, IsUnionOf, next_number};
ghost use Rattle.def_model.specs.Answers.{IsListOf};
ghost use Rattle.def_model.specs.Cuts.{IsNextOf};
ghost use Rattle.std.specs.Prelude.{◌≡◌, All, IfOk, length};

use crate::part::Part;
use pd_clock::Computation;
use pd_level::Level;
use std::alloc::{AllocError, Global};

/// How many cuts the parts have together, at most the greatest `usize`.
fn cut_count(parts: &[Part]) -> usize {
    let mut count: usize = 0;
    for part in parts {
        count = count.saturating_add(part.next.len());
    }
    count
}

/// The cuts of these parts of the level's next one, each once and in lexicographic order. Parts in the order of their
/// blocks are written one after another.
fn in_order(
    alloc: Global,
    computation: &Computation<'_>,
    level: &Level,
    parts: &[Part],
) -> Result<Level, AllocError>
    requires { All (IsPartOf computation.now.events level.now) parts.now }
    ensures { IfOk result (IsUnionOf computation.now.events level.now parts.now) }
{
    let number = level.number().saturating_add(1);
    let mut next = Level::with_room(alloc, computation, number, cut_count(parts))?;
    for i in 0..parts.len() {
        next = next.with_cuts_of(alloc, computation, &parts[i].next)?;
    }
    Ok(next)
}

/// The next level, of the parts of all blocks. The parts are put in the order of their blocks.
///
/// # Errors
/// An allocation was refused.
pub(crate) fn next_of_parts(
    alloc: Global,
    computation: &Computation<'_>,
    level: &Level,
    blocks: u64,
    parts: Vec<Part>,
) -> Result<Level, AllocError>
    requires blocks { AreBlocksOf blocks (length level.now.cuts) }
    requires parts { ArePartsOf computation.now.events level.now blocks (λ block. 1) parts.items }
    ensures list { IfOk result (λ next. IsListOf (IsNextOf computation.now.events level.now.cuts) next.cuts) }
    ensures number { IfOk result (λ next. next.number ≡ next_number level.now) }
{
    let mut parts = parts;
    parts.sort_by_key(|part: &Part| part.block)?;
    in_order(alloc, computation, level, &parts)
}
