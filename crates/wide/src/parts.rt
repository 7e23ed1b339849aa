//! The parts of a predicate that is an `or`.
ghost use Rattle.def_format.specs.Limits.{event_limit, process_limit};
ghost use Rattle.def_model.specs.Decided.{DecidesPossibly};
ghost use Rattle.def_model.specs.Events.{Computation as Events};
ghost use Rattle.def_model.specs.Predicates.{test_of};
ghost use Rattle.def_wide.specs.Parts.{IsFirstIfAny, PartsDecide, opposite_if};
ghost use Rattle.pd_pred.specs.Trees.{tree_view};
ghost use Rattle.wide.specs.Sides.{IsEither};
ghost use Rattle.std.specs.Prelude.{◌≡◌, ◌*◌, ◌≤◌, ◌↔◌, Bool, IfOk, IfSome, IsTrue, List, length, sum, ℕ};

use pd_clock::{Computation, Cut};
use pd_pred::Tree;
use std::alloc::{AllocError, Global};
use wide_conjunctions::is_before;
use wide_pairs::{first_of_two, is_of_two};
use wide_terms::{first_by_terms, has_few_terms};

/// Whether Possibly of a predicate, or of its opposite where `negated`, is decided by its terms or its two processes.
fn is_decided(computation: &Computation<'_>, tree: &Tree, negated: bool) -> bool
    ensures { IsTrue result ↔ DecidesPossibly computation.now (opposite_if negated (tree_view tree.now)) }
{
    has_few_terms(tree, negated) || is_of_two(computation, tree)
}

/// Whether Possibly of each part of a predicate, or of its opposite where `negated`, is decided so.
pub(crate) fn parts_decide(computation: &Computation<'_>, tree: &Tree, negated: bool) -> bool
    ensures { IsTrue result ↔ PartsDecide negated computation.now (tree_view tree.now) }
{
    match tree {
        Tree::Not(inner) => parts_decide(computation, inner, !negated),
        Tree::And(left, right) => {
            if !negated {
                return is_decided(computation, tree, negated);
            }
            parts_decide(computation, left, negated) && parts_decide(computation, right, negated)
        }
        Tree::Or(left, right) => {
            if negated {
                return is_decided(computation, tree, negated);
            }
            parts_decide(computation, left, negated) && parts_decide(computation, right, negated)
        }
        Tree::Always | Tree::Never | Tree::Compare { .. } => is_decided(computation, tree, negated),
    }
}

/// The first of two cuts, of those that there are.
fn first_of_both(first: Option<Cut>, second: Option<Cut>) -> Option<Cut>
    requires same { IfSome first (λ a. IfSome second (λ b. length a ≡ length b)) }
    requires first { IfSome first (λ a. sum a ≤ event_limit * process_limit) }
    requires second { IfSome second (λ b. sum b ≤ event_limit * process_limit) }
    ensures { (c : Events) (one two test : List ℕ → Bool) → IsEither one two test → IsFirstIfAny c one first
        → IsFirstIfAny c two second → IsFirstIfAny c test result }
{
    let Some(a) = first else {
        return second;
    };
    let Some(b) = second else {
        return Some(a);
    };
    if is_before(&b, &a) { Some(b) } else { Some(a) }
}

/// The first consistent cut that satisfies a predicate, or its opposite where `negated`, of which Possibly is decided
/// by its terms or its two processes. Terms come first, since they take time for the events, and the counts of two
/// processes for their pairs.
fn first_of_part(
    alloc: Global,
    computation: &Computation<'_>,
    tree: &Tree,
    negated: bool,
) -> Result<Option<Cut>, AllocError>
    requires { DecidesPossibly computation.now (opposite_if negated (tree_view tree.now)) }
    ensures { IfOk result (IsFirstIfAny computation.now.events
        (test_of computation.now (opposite_if negated (tree_view tree.now)))) }
{
    if has_few_terms(tree, negated) {
        return first_by_terms(alloc, computation, tree, negated);
    }
    first_of_two(alloc, computation, tree, negated)
}

/// The first consistent cut that satisfies a predicate of which each part decides Possibly, or its opposite where
/// `negated`: the first of those of its parts. What is decided as a whole is asked as a whole, and each part once.
///
/// # Errors
/// An allocation was refused.
pub(crate) fn first_of_parts(
    alloc: Global,
    computation: &Computation<'_>,
    tree: &Tree,
    negated: bool,
) -> Result<Option<Cut>, AllocError>
    requires { PartsDecide negated computation.now (tree_view tree.now) }
    ensures { IfOk result (IsFirstIfAny computation.now.events
        (test_of computation.now (opposite_if negated (tree_view tree.now)))) }
{
    if is_decided(computation, tree, negated) {
        return first_of_part(alloc, computation, tree, negated);
    }
    computation.total();
    match tree {
        Tree::Not(inner) => first_of_parts(alloc, computation, inner, !negated),
        Tree::And(left, right) | Tree::Or(left, right) => {
            let first = first_of_parts(alloc, computation, left, negated)?;
            let second = first_of_parts(alloc, computation, right, negated)?;
            Ok(first_of_both(first, second))
        }
        // these are decided as a whole
        Tree::Always | Tree::Never | Tree::Compare { .. } => Ok(None),
    }
}
