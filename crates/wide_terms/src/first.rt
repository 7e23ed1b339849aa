//! The first satisfying cut, by terms.
ghost use Rattle.def_format.specs.Limits.{event_limit, process_limit};
ghost use Rattle.wide_conjunctions.specs.CutOrder.{IsFirstLeast};
ghost use Rattle.wide_conjunctions.specs.LeastCuts.{IsLeastGood};
ghost use Rattle.def_model.specs.Events.{Computation as Events};
ghost use Rattle.def_model.specs.Decided.{HasFewTerms};
ghost use Rattle.def_model.specs.Predicates.{test_of};
ghost use Rattle.def_wide.specs.Parts.{IsFirstIfAny, opposite_if};
ghost use Rattle.pd_pred.specs.Trees.{tree_view};
ghost use Rattle.wide_terms.specs.FirstCuts.{IsFirstSoFar, goods_of};
ghost use Rattle.wide_terms.specs.Rows.{numbers_view};
ghost use Rattle.std.specs.Prelude.{◌≡◌, ◌+◌, ◌*◌, ◌≤◌, ℕ, Bool, IfOk, IfSome, length, sum};

use super::terms::Terms;
use pd_clock::{Computation, Cut};
use pd_pred::Tree;
use std::alloc::{AllocError, Global};
use wide_conjunctions::{is_before, least_good};

/// The first of the cuts so far, and of one more.
fn earlier(first: Option<Cut>, cut: Cut) -> Cut
    requires same { IfSome first (λ known. length known ≡ length cut) }
    requires known { IfSome first (λ known. sum known ≤ event_limit * process_limit) }
    requires more { sum cut ≤ event_limit * process_limit }
    ensures { (c : Events) (goods : ℕ → ℕ → ℕ → Bool) (n : ℕ) → IsFirstSoFar c goods n first
        → IsLeastGood c (goods n) cut → IsFirstLeast c goods (n + 1) result }
{
    // the laws that the proof uses
    wide_conjunctions::first_of_least();
    wide_conjunctions::cut_order();
    match first {
        None => cut,
        Some(known) => { if is_before(&cut, &known) { cut } else { known } }
    }
}

/// The first of the least cuts of the terms, if any has one.
fn first_least(
    alloc: Global,
    computation: &Computation<'_>,
    terms: &Terms,
) -> Result<Option<Cut>, AllocError>
    ensures { IfOk result (IsFirstSoFar computation.now.events
        (goods_of terms.now.rows.items (numbers_view terms.now.terms.items)) (length terms.now.terms.items)) }
{
    // the law that the proof uses
    def_model::levels();
    computation.total();
    let mut first = None;
    for i in 0..terms.len() {
        match least_good(alloc, computation, &terms.term(i))? {
            Some(cut) => first = Some(earlier(first, cut)),
            None => {}
        }
    }
    Ok(first)
}

/// The first consistent cut that satisfies a predicate which has few terms, or its opposite where `negated`, whatever
/// the width. No level is walked: each term takes time for the events, times the processes.
///
/// Source: Garg and Waldecker, Detection of Weak Unstable Predicates in Distributed Programs, 1994.
///
/// # Errors
/// An allocation was refused.
pub fn first_by_terms(
    alloc: Global,
    computation: &Computation<'_>,
    tree: &Tree,
    negated: bool,
) -> Result<Option<Cut>, AllocError>
    requires { HasFewTerms (opposite_if negated (tree_view tree.now)) }
    ensures { IfOk result (IsFirstIfAny computation.now.events
        (test_of computation.now (opposite_if negated (tree_view tree.now)))) }
{
    // the laws that the proof uses
    wide_conjunctions::first_of_least();
    computation.limits();
    let terms = Terms::of(alloc, computation, tree, negated)?;
    match first_least(alloc, computation, &terms)? {
        Some(cut) => Ok(Some(cut)),
        None => Ok(None),
    }
}
