//! The first satisfying cut.
ghost use Rattle.def_format.specs.Limits.{event_limit, process_limit};
ghost use Rattle.wide_pairs.specs.FirstCuts.{HasNoneAt, IsFirstAt, IsFirstSoFar};
ghost use Rattle.wide_pairs.specs.LeastCuts.{ArePasts};
ghost use Rattle.wide_pairs.specs.Pairs.{IsFirstByPairs, IsNeverByPairs};
ghost use Rattle.wide_pairs.specs.Rows.{IsRow};
ghost use Rattle.def_model.specs.Events.{Computation as Events, event_count};
ghost use Rattle.std.specs.Prelude.{◌≡◌, ◌+◌, ◌*◌, ◌<◌, ◌≤◌, ℕ, Bool, IfNone, IfOk, IfSome, Some, length, sum};

use super::band::{end_of, first_good};
use super::good_pairs::GoodPairs;
use super::least::{least_with_both, pasts};
use pd_clock::{Computation, Cut};
use std::alloc::{AllocError, Global};
use wide_conjunctions::is_before;

/// The first of the cuts so far, and of one more.
fn earlier(first: Option<Cut>, cut: Cut) -> Cut
    requires same { IfSome first (λ known. length known ≡ length cut) }
    requires known { IfSome first (λ known. sum known ≤ event_limit * process_limit) }
    requires more { sum cut ≤ event_limit * process_limit }
    ensures { (c : Events) (good : ℕ → ℕ → Bool) (p q i : ℕ) → IsFirstSoFar c good p q i first
        → IsFirstAt c good p q i cut → IsFirstSoFar c good p q (i + 1) (Some result) }
{
    match first {
        None => cut,
        Some(known) => { if is_before(&cut, &known) { cut } else { known } }
    }
}

/// The first of the consistent cuts with `i` events of process `p` whose pair is good, if there is any. The counts of
/// process `q` in consistent cuts with these events are those from `low` on, before `end`.
fn first_at<G: GoodPairs>(
    alloc: Global,
    computation: &Computation<'_>,
    p: usize,
    q: usize,
    wanted: &G,
    i: u64,
    low: u64,
    end: u64,
) -> Result<Option<Cut>, AllocError>
    requires first { p < length computation.now.events }
    requires second { q < length computation.now.events }
    requires within { i ≤ event_count computation.now.events p }
    requires row { IsRow computation.now.events p q i low end }
    ensures some { IfOk result (λ found. IfSome found (IsFirstAt computation.now.events (G.good wanted.now) p q i)) }
    ensures none { IfOk result (λ found. IfNone found (HasNoneAt computation.now.events (G.good wanted.now) p q i)) }
{
    match first_good(wanted, i, low, end) {
        None => Ok(None),
        Some(j) => {
            let cut = least_with_both(alloc, computation, p, q, i, j)?;
            Ok(Some(cut))
        }
    }
}

/// The first of the consistent cuts whose pair is good, if there is any. For each count of `p` and of `q` there is how
/// many events of the other are in its past.
fn first_of_rows<G: GoodPairs>(
    alloc: Global,
    computation: &Computation<'_>,
    p: usize,
    q: usize,
    wanted: &G,
    lows: &[u64],
    backs: &[u64],
) -> Result<Option<Cut>, AllocError>
    requires first { p < length computation.now.events }
    requires second { q < length computation.now.events }
    requires lows { ArePasts computation.now.events p q lows.now }
    requires backs { ArePasts computation.now.events q p backs.now }
    ensures { IfOk result (IsFirstSoFar computation.now.events (G.good wanted.now) p q
        (event_count computation.now.events p + 1)) }
{
    computation.total();
    let mut first = None;
    let mut end = 0;
    for i in 0..lows.len() {
        end = end_of(backs, i as u64, end);
        let found = first_at(
            alloc,
            computation,
            p,
            q,
            wanted,
            i as u64,
            lows[i],
            end as u64,
        )?;
        match found {
            Some(cut) => first = Some(earlier(first, cut)),
            None => {}
        }
    }
    Ok(first)
}

/// The first satisfying cut, if there is any, of a test that asks for good counts of processes `p` and `q`, counted
/// from 0. No level is walked, whatever their width: each pair of counts that a consistent cut can have is asked for
/// once at most, and each count of `p` takes time for the processes.
///
/// Source: `docs/ANY-WIDTH.md` has the argument for the grid of pairs; its least cuts are those of Garg and Waldecker,
/// Detection of Weak Unstable Predicates in Distributed Programs, 1994.
///
/// # Errors
/// An allocation was refused.
pub fn possibly_by_pairs<G: GoodPairs>(
    alloc: Global,
    computation: &Computation<'_>,
    p: usize,
    q: usize,
    wanted: &G,
) -> Result<Option<Cut>, AllocError>
    requires order { p < q }
    requires there { q < length computation.now.events }
    ensures some { IfOk result (λ found. IfSome found
        (IsFirstByPairs computation.now.events (G.good wanted.now) p q)) }
    ensures none { IfOk result (λ found. IfNone found
        (IsNeverByPairs computation.now.events (G.good wanted.now) p q)) }
{
    let lows = pasts(alloc, computation, p, q)?;
    let backs = pasts(alloc, computation, q, p)?;
    match first_of_rows(alloc, computation, p, q, wanted, &lows, &backs)? {
        Some(cut) => Ok(Some(cut)),
        None => Ok(None),
    }
}
