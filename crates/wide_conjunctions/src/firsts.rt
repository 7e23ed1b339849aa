//! The first good count of each process.
ghost use Rattle.wide_conjunctions.specs.Firsts.{AreFirsts, IsFirstGood};
ghost use Rattle.def_model.specs.Events.{event_count};
ghost use Rattle.std.specs.Prelude.{◌≡◌, ◌<◌, ℕ, IfOk, false, length, slice_index, true};

use super::good_counts::GoodCounts;
use pd_clock::Computation;
use std::alloc::{AllocError, Global};

/// The first good count of process `p`, counted from 0, or one more than it has events if none is good.
fn first_good<G: GoodCounts>(computation: &Computation<'_>, wanted: &G, p: usize) -> u64
    requires { p < length computation.now.events }
    ensures { IsFirstGood (G.good wanted.now p) (event_count computation.now.events p) result }
{
    computation.limits();
    let end = computation.events(p) + 1;
    for count in 0..end {
        if wanted.is_good(p, count) {
            return count;
        }
    }
    end
}

/// The same of each process.
///
/// # Errors
/// An allocation was refused.
pub(crate) fn first_goods<G: GoodCounts>(
    alloc: Global,
    computation: &Computation<'_>,
    wanted: &G,
) -> Result<Vec<u64>, AllocError>
    ensures { IfOk result (λ firsts. AreFirsts computation.now.events (G.good wanted.now) firsts.items) }
{
    let mut firsts = Vec::with_capacity(alloc, computation.processes())?;
    for p in 0..computation.processes() {
        firsts.push(first_good(computation, wanted, p))?;
    }
    Ok(firsts)
}

/// Whether a count is 0.
pub(crate) fn has_zero(firsts: &[u64]) -> bool
    ensures some { result ≡ true → (q : ℕ) × (q < length firsts.now) × (slice_index firsts.now q ≡ 0) }
    ensures none { result ≡ false → (q : ℕ) → q < length firsts.now → 0 < slice_index firsts.now q }
{
    for q in 0..firsts.len() {
        if firsts[q] == 0 {
            return true;
        }
    }
    false
}
