//! The search for receipts that are enough and needed.
ghost use Rattle.judge_causes.specs.Asked.{FitsAsked, asked_predicate, asked_run};
ghost use Rattle.judge_causes.specs.Causes.{AreCauses};
ghost use Rattle.judge_causes.specs.Search.{IsSearched, IsShort, IsStage};
ghost use Rattle.def_model.specs.Predicates.{Predicate, Recorded};
ghost use Rattle.pd_clock.specs.Orders.{places_view};
ghost use Rattle.pd_match.specs.Views.{place_view};
ghost use Rattle.std.specs.Prelude.{◌≡◌, ◌&&◌, ◌∷◌, ◌<◌, IfOk, false, length};

use super::Asked;
use super::range::{Short, joined, shortest};
use pd_clock::Place;
use std::alloc::{AllocError, Global};
use std::random::RandomSource;

/// Why no consistent cut satisfies a predicate.
#[derive(Drop)]
pub struct Causes {
    /// Receipts, in the order of their places. They are enough: wherever their sends come before them, no consistent
    /// cut satisfies.
    pub receipts: Vec<Place>,
    /// Whether each of them is needed: without it the others aren't enough.
    pub are_needed: bool,
}

/// How far the search is: the candidates and those that are kept are enough.
#[derive(Drop)]
pub(crate) struct Search {
    /// Receipts that may be left out.
    pub candidates: Vec<Place>,
    /// Receipts after these that stay.
    pub kept: Vec<Place>,
    /// Whether each that is kept is needed.
    pub are_needed: bool,
}

/// The place, and then the others.
fn with_first(alloc: Global, first: Place, others: &[Place]) -> Result<Vec<Place>, AllocError>
    ensures { IfOk result (λ made. places_view made.items ≡ place_view first ∷ places_view others.now) }
{
    let mut made = Vec::with_capacity(alloc, others.len().saturating_add(1))?;
    made.push(first)?;
    made.extend_from_slice(others)?;
    Ok(made)
}

/// Whether both are so.
fn both(first: bool, second: bool) -> bool
    ensures { result ≡ (first && second) }
{
    first && second
}

/// The search with as many first candidates as are enough: the last of them stays.
fn narrowed(alloc: Global, search: Search, short: Short) -> Result<Search, AllocError>
    ensures stage { IfOk result (λ next. (r : Recorded) (predicate : Predicate) → IsStage r predicate search
        → IsShort r predicate (places_view search.candidates.items) (places_view search.kept.items) short.count
        short.is_least → IsStage r predicate next) }
    ensures smaller { IfOk result (λ next. 0 < length search.candidates.items
        → length next.candidates.items < length search.candidates.items) }
{
    let Search {
        mut candidates,
        kept,
        are_needed,
    } = search;
    candidates.truncate(short.count);
    match candidates.pop() {
        Some(last) => Ok(Search {
            candidates,
            kept: with_first(alloc, last, &kept)?,
            are_needed: both(are_needed, short.is_least),
        }),
        None => Ok(Search {
            candidates,
            kept,
            are_needed,
        }),
    }
}

/// The candidates, and then those that are kept. Whether a candidate is needed isn't known.
fn causes_from(
    alloc: Global,
    candidates: &[Place],
    kept: &[Place],
    are_needed: bool,
) -> Result<Causes, AllocError>
    ensures { IfOk result (λ causes. (r : Recorded) (predicate : Predicate)
        → IsSearched r predicate (places_view candidates.now) (places_view kept.now) are_needed
        → AreCauses r predicate (places_view causes.receipts.items) causes.are_needed) }
{
    Ok(Causes {
        receipts: joined(alloc, candidates, candidates.len(), kept)?,
        are_needed: both(are_needed, candidates.is_empty()),
    })
}

/// What is found at the end of the search.
fn causes_at(alloc: Global, search: &Search) -> Result<Causes, AllocError>
    ensures { IfOk result (λ causes. (r : Recorded) (predicate : Predicate) → IsStage r predicate search.now
        → AreCauses r predicate (places_view causes.receipts.items) causes.are_needed) }
{
    let causes = causes_from(alloc, &search.candidates, &search.kept, search.are_needed)?;
    Ok(causes)
}

/// Searches for receipts that are enough and needed, among these that are enough, with no more trials than this.
///
/// The last receipt of the shortest beginning of the candidates that is enough with those that are kept is kept too,
/// and those after it are left out; until those that are kept are enough. Each takes as many trials as a binary search
/// among the candidates.
///
/// Source: Junker, QuickXplain: Preferred Explanations and Relaxations for Over-Constrained Problems, 2004; Zeller and
/// Hildebrandt, Simplifying and Isolating Failure-Inducing Input, 2002.
///
/// # Errors
/// An allocation was refused.
pub(crate) fn search_from<R: RandomSource>(
    rt: &R,
    alloc: Global,
    asked: &Asked<'_>,
    receipts: Vec<Place>,
    trials: u64,
) -> Result<Causes, AllocError>
    requires fit { FitsAsked asked.now }
    requires enough { AreCauses (asked_run asked.now) (asked_predicate asked.now) (places_view receipts.items) false }
    ensures { IfOk result (λ causes. AreCauses (asked_run asked.now) (asked_predicate asked.now)
        (places_view causes.receipts.items) causes.are_needed) }
{
    let mut left = trials;
    let mut search = Search {
        candidates: receipts,
        kept: Vec::new(alloc),
        are_needed: true,
    };
    while !search.candidates.is_empty() && left > 0 {
        let short = shortest(
            rt,
            alloc,
            asked,
            &search.candidates,
            &search.kept,
            &mut left,
        )?;
        search = narrowed(alloc, search, short)?;
    }
    let causes = causes_at(alloc, &search)?;
    Ok(causes)
}
