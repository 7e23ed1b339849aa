//! The first satisfying cut.
ghost use Rattle.def_model.specs.Decided.{IsOfTwo};
ghost use Rattle.def_model.specs.Predicates as model;
ghost use Rattle.def_wide.specs.Parts.{IsFirstIfAny, opposite_if};
ghost use Rattle.pd_pred.specs.Trees.{tree_view};
ghost use Rattle.std.specs.Prelude.{◌↔◌, IfOk, IsTrue};

use super::grid_possibly::possibly_by_pairs;
use super::names::pair_of;
use super::test::turned_test;
use pd_clock::{Computation, Cut};
use pd_pred::Tree;
use std::alloc::{AllocError, Global};

/// Whether a predicate speaks of two processes of a computation alone.
pub fn is_of_two(computation: &Computation<'_>, tree: &Tree) -> bool
    ensures { IsTrue result ↔ IsOfTwo computation.now.events (tree_view tree.now) }
{
    match pair_of(computation, tree) {
        Some(_) => true,
        None => false,
    }
}

/// The first consistent cut that satisfies a predicate which speaks of two processes alone, or its opposite where
/// `negated`, whatever the width. No level is walked: each pair of counts of the two that a consistent cut can have is
/// looked at once at most, and each count of the one takes time for the processes.
///
/// Source: `docs/ANY-WIDTH.md` has the argument for the grid of pairs; its least cuts are those of Garg and Waldecker,
/// Detection of Weak Unstable Predicates in Distributed Programs, 1994.
///
/// # Errors
/// An allocation was refused.
pub fn first_of_two(
    alloc: Global,
    computation: &Computation<'_>,
    tree: &Tree,
    negated: bool,
) -> Result<Option<Cut>, AllocError>
    requires { IsOfTwo computation.now.events (tree_view tree.now) }
    ensures { IfOk result (IsFirstIfAny computation.now.events
        (model.test_of computation.now (opposite_if negated (tree_view tree.now)))) }
{
    let found = pair_of(computation, tree);
    let Some(pair) = found else {
        // the predicate isn't of two
        return Ok(None);
    };
    let test = turned_test(alloc, computation, pair, tree, negated)?;
    let first = possibly_by_pairs(alloc, computation, pair.first, pair.second, &test)?;
    match first {
        Some(cut) => Ok(Some(cut)),
        None => Ok(None),
    }
}
