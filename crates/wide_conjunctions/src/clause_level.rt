//! The least level that has no avoiding cut.
ghost use Rattle.wide_conjunctions.specs.Clauses.{IsFreeLevelOf, IsNever};
ghost use Rattle.std.specs.Prelude.{◌≡◌, IfNone, IfOk, IfSome};

use super::clause_laws::clauses;
use super::good_counts::GoodCounts;
use super::most::most_before;
use super::order::events;
use pd_clock::Computation;
use std::alloc::{AllocError, Global};

/// Where a cut satisfies exactly if some process is at a good count: the least level that has no avoiding cut, so that
/// every observation passes through a satisfying one; or none if no consistent cut satisfies. No level is walked,
/// whatever their width.
///
/// # Errors
/// An allocation was refused.
pub fn free_level<G: GoodCounts>(
    alloc: Global,
    computation: &Computation<'_>,
    wanted: &G,
) -> Result<Option<u64>, AllocError>
    ensures some { IfOk result (λ found. IfSome found (IsFreeLevelOf computation.now.events (G.good wanted.now))) }
    ensures none { IfOk result (λ found. IfNone found (IsNever computation.now.events (G.good wanted.now))) }
{
    // the laws that the proof uses
    clauses();
    computation.limits();
    let total = computation.total();
    let found = most_before(alloc, computation, wanted)?;
    let Some(cut) = found else {
        return Ok(Some(0));
    };
    let count = events(cut.counts());
    if count >= total {
        return Ok(None);
    }
    Ok(Some(count + 1))
}
