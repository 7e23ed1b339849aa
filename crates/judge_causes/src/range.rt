//! How many candidates are enough with the receipts that are kept.
ghost use Rattle.judge_causes.specs.Asked.{FitsAsked, asked_predicate, asked_run};
ghost use Rattle.judge_causes.specs.Enough.{IsEnough};
ghost use Rattle.judge_causes.specs.Search.{IsRange, IsShort, IsTrial};
ghost use Rattle.def_model.specs.Events.{Place as ModelPlace};
ghost use Rattle.def_model.specs.Predicates.{Predicate, Recorded};
ghost use Rattle.pd_clock.specs.Orders.{places_view};
ghost use Rattle.std.specs.Prelude.{◌≡◌, ◌++◌, ◌<◌, ◌≤◌, ◌-◌, Contains, IfOk, List, length, take};

use super::Asked;
use super::trial::{Trial, try_receipts};
use pd_clock::Place;
use std::alloc::{AllocError, Global};
use std::random::RandomSource;

/// Between which numbers the least is that is enough, as far as trials have found.
#[derive(Clone, Copy)]
pub(crate) struct Range {
    /// One less isn't enough, or isn't decided; or it is 0.
    pub low: usize,
    /// This many are enough.
    pub high: usize,
    /// Whether one less than `low` isn't enough; or `low` is 0.
    pub is_sure: bool,
}

/// How many candidates are enough.
#[derive(Clone, Copy)]
pub(crate) struct Short {
    /// The first ones, this many.
    pub count: usize,
    /// Whether one less isn't enough.
    pub is_least: bool,
}

/// The first candidates, this many, and then those that are kept.
///
/// # Errors
/// An allocation was refused.
pub(crate) fn joined(
    alloc: Global,
    candidates: &[Place],
    count: usize,
    kept: &[Place],
) -> Result<Vec<Place>, AllocError>
    requires { count ≤ length candidates.now }
    ensures { IfOk result (λ made. places_view made.items
        ≡ take count (places_view candidates.now) ++ places_view kept.now) }
{
    let mut made = Vec::with_capacity(alloc, count.saturating_add(kept.len()))?;
    made.extend_from_slice(&candidates[..count])?;
    made.extend_from_slice(kept)?;
    Ok(made)
}

/// Tries whether the first candidates, this many, are enough with those that are kept.
fn try_first<R: RandomSource>(
    rt: &R,
    alloc: Global,
    asked: &Asked<'_>,
    candidates: &[Place],
    count: usize,
    kept: &[Place],
) -> Result<Trial, AllocError>
    requires fit { FitsAsked asked.now }
    requires within { count ≤ length candidates.now }
    ensures { IfOk result (IsTrial (asked_run asked.now) (asked_predicate asked.now)
        (take count (places_view candidates.now) ++ places_view kept.now)) }
{
    let receipts = joined(alloc, candidates, count, kept)?;
    try_receipts(rt, alloc, asked, &receipts)
}

/// How many candidates to try next: none at first, and then half of those in question.
fn middle(range: Range) -> usize
    requires { range.low < range.high }
    ensures low { range.low ≤ result }
    ensures high { result < range.high }
{
    if range.low == 0 {
        return 0;
    }
    range.low + (range.high - range.low) / 2
}

/// The range after a trial of this many candidates.
fn range_after(range: Range, count: usize, trial: Trial) -> Range
    requires low { range.low ≤ count }
    requires high { count < range.high }
    ensures range { (r : Recorded) (predicate : Predicate) (candidates kept : List ModelPlace)
        → IsRange r predicate candidates kept range
        → IsTrial r predicate (take count candidates ++ kept) trial
        → IsRange r predicate candidates kept result }
    ensures smaller { result.high - result.low < range.high - range.low }
{
    match trial {
        Trial::Enough => Range {
            low: range.low,
            high: count,
            is_sure: range.is_sure,
        },
        Trial::NotEnough => Range {
            low: count + 1,
            high: range.high,
            is_sure: true,
        },
        Trial::Undecided => Range {
            low: count + 1,
            high: range.high,
            is_sure: false,
        },
    }
}

/// What is known at the end.
fn short_of(range: Range) -> Short
    ensures { (r : Recorded) (predicate : Predicate) (candidates kept : List ModelPlace)
        → IsRange r predicate candidates kept range
        → IsShort r predicate candidates kept result.count result.is_least }
{
    Short {
        count: range.high,
        is_least: range.is_sure && range.low == range.high,
    }
}

/// The least number of first candidates that is enough with those that are kept, by a binary search: what is enough
/// stays so with more. It ends early if there are no trials left; then a number is found that is enough.
///
/// # Errors
/// An allocation was refused.
pub(crate) fn shortest<R: RandomSource>(
    rt: &R,
    alloc: Global,
    asked: &Asked<'_>,
    candidates: &[Place],
    kept: &[Place],
    trials: &mut u64,
) -> Result<Short, AllocError>
    requires fit { FitsAsked asked.now }
    requires enough { IsEnough (asked_run asked.now) (asked_predicate asked.now)
        (Contains (places_view candidates.now ++ places_view kept.now)) }
    ensures { IfOk result (λ short. IsShort (asked_run asked.now) (asked_predicate asked.now)
        (places_view candidates.now) (places_view kept.now) short.count short.is_least) }
{
    let mut range = Range {
        low: 0,
        high: candidates.len(),
        is_sure: true,
    };
    while range.low < range.high && *trials > 0 {
        *trials -= 1;
        let count = middle(range);
        let trial = try_first(rt, alloc, asked, candidates, count, kept)?;
        range = range_after(range, count, trial);
    }
    Ok(short_of(range))
}
