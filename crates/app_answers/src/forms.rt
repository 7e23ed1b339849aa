//! Of which form a predicate is: whether rules decide it at any width, and if not, which of them doesn't apply.
//!
//! The crates `wide_terms`, `wide_pairs` and `wide_sums` decide. This crate doesn't stand on them: for what is said it
//! asks the predicate alone.
ghost use Rattle.def_model.specs.Decided.{IsOr, term_count};
ghost use Rattle.pd_pred.specs.Trees.{tree_view};
ghost use Rattle.std.specs.Prelude.{◌≡◌, ◌+◌, ◌*◌, ◌↔◌, IsTrue, cond, min};

use super::possible::named_count;
use judge_facts::sum_names_process;
use pd_pred::{Comparison, Sum, Tree};

/// How many terms a predicate may have that rules decide.
const TERM_LIMIT: u64 = 4_096;

/// Whether a comparison of two sums names several of this many processes.
fn names_several(left: &Sum, right: &Sum, processes: usize) -> bool {
    let mut is_found = false;
    for process in 0..processes {
        if sum_names_process(left, process) || sum_names_process(right, process) {
            if is_found {
                return true;
            }
            is_found = true;
        }
    }
    false
}

/// Whether no comparison of a predicate names several processes.
fn is_local(tree: &Tree, processes: usize) -> bool {
    match tree {
        Tree::Always | Tree::Never => true,
        Tree::Compare { left, right, .. } => !names_several(left, right, processes),
        Tree::Not(inner) => is_local(inner, processes),
        Tree::And(left, right) | Tree::Or(left, right) => {
            is_local(left, processes) && is_local(right, processes)
        }
    }
}

/// The sum or the product of two numbers, or the greatest `u64` if it is greater.
fn joined(is_or: bool, left: u64, right: u64) -> u64
    ensures { result ≡ min (cond is_or (left + right) (left * right)) 18446744073709551615 }
{
    if is_or {
        left.saturating_add(right)
    } else {
        left.saturating_mul(right)
    }
}

/// How many terms a predicate has, or its opposite where `negated`; the greatest `u64` if they are more.
fn count(tree: &Tree, negated: bool) -> u64
    ensures { result ≡ min (term_count negated (tree_view tree.now)) 18446744073709551615 }
{
    match tree {
        Tree::Always | Tree::Never | Tree::Compare { .. } => 1,
        Tree::Not(inner) => count(inner, !negated),
        Tree::And(left, right) => joined(negated, count(left, negated), count(right, negated)),
        Tree::Or(left, right) => joined(!negated, count(left, negated), count(right, negated)),
    }
}

/// Whether no comparison of a predicate names several processes, and it has few terms, or its opposite where `negated`.
fn has_few_terms(tree: &Tree, negated: bool, processes: usize) -> bool {
    is_local(tree, processes) && count(tree, negated) <= TERM_LIMIT
}

/// Whether a predicate names two processes at most, of two or more.
fn is_of_two(tree: &Tree, processes: usize) -> bool {
    processes >= 2 && named_count(tree, processes) <= 2
}

/// Whether Possibly of a predicate, or of its opposite where `negated`, is decided by its terms or its two processes.
fn is_decided(tree: &Tree, negated: bool, processes: usize) -> bool {
    has_few_terms(tree, negated, processes) || is_of_two(tree, processes)
}

/// Whether Possibly of each part of a predicate, or of its opposite where `negated`, is decided so.
fn parts_decide(tree: &Tree, negated: bool, processes: usize) -> bool {
    match tree {
        Tree::Not(inner) => parts_decide(inner, !negated, processes),
        Tree::And(left, right) => {
            if !negated {
                return is_decided(tree, negated, processes);
            }
            parts_decide(left, negated, processes) && parts_decide(right, negated, processes)
        }
        Tree::Or(left, right) => {
            if negated {
                return is_decided(tree, negated, processes);
            }
            parts_decide(left, negated, processes) && parts_decide(right, negated, processes)
        }
        Tree::Always | Tree::Never | Tree::Compare { .. } => is_decided(tree, negated, processes),
    }
}

/// Whether a predicate, or its opposite where `negated`, is an `or` of comparisons and constants.
fn is_or(tree: &Tree, negated: bool) -> bool
    ensures { IsTrue result ↔ IsOr negated (tree_view tree.now) }
{
    match tree {
        Tree::Always | Tree::Never | Tree::Compare { .. } => true,
        Tree::Not(inner) => is_or(inner, !negated),
        Tree::And(left, right) => negated && is_or(left, negated) && is_or(right, negated),
        Tree::Or(left, right) => !negated && is_or(left, negated) && is_or(right, negated),
    }
}

/// The greater one of two numbers, of those that there are.
fn greater_of(left: Option<u64>, right: Option<u64>) -> Option<u64> {
    match (left, right) {
        (Some(left), Some(right)) => Some(left.max(right)),
        (Some(left), None) => Some(left),
        (None, right) => right,
    }
}

/// The sum of two numbers, if both are there.
fn sum_of(left: Option<u64>, right: Option<u64>) -> Option<u64> {
    match (left, right) {
        (Some(left), Some(right)) => Some(left.saturating_add(right)),
        _ => None,
    }
}

/// How many sums the term has that has most of them, of a predicate, or of its opposite where `negated`; nothing if it
/// has no term.
fn most_sums(tree: &Tree, negated: bool, processes: usize) -> Option<u64> {
    match tree {
        Tree::Always => if negated { None } else { Some(0) },
        Tree::Never => if negated { Some(0) } else { None },
        Tree::Compare { left, right, .. } => { Some(names_several(left, right, processes) as u64) }
        Tree::Not(inner) => most_sums(inner, !negated, processes),
        Tree::And(left, right) => {
            let left = most_sums(left, negated, processes);
            let right = most_sums(right, negated, processes);
            if negated {
                greater_of(left, right)
            } else {
                sum_of(left, right)
            }
        }
        Tree::Or(left, right) => {
            let left = most_sums(left, negated, processes);
            let right = most_sums(right, negated, processes);
            if negated {
                sum_of(left, right)
            } else {
                greater_of(left, right)
            }
        }
    }
}

/// Whether a comparison, or its opposite where `negated`, is `==`.
fn is_equal(comparison: Comparison, negated: bool) -> bool {
    match comparison {
        Comparison::Equals => !negated,
        Comparison::Differs => negated,
        Comparison::IsLess | Comparison::IsAtMost | Comparison::IsGreater | Comparison::IsAtLeast =>
            false,
    }
}

/// Whether a predicate, or its opposite where `negated`, has an `==` of a sum that names several processes.
fn has_equal_sum(tree: &Tree, negated: bool, processes: usize) -> bool {
    match tree {
        Tree::Always | Tree::Never => false,
        Tree::Compare {
            left,
            comparison,
            right,
        } => { is_equal(*comparison, negated) && names_several(left, right, processes) }
        Tree::Not(inner) => has_equal_sum(inner, !negated, processes),
        Tree::And(left, right) | Tree::Or(left, right) => {
            has_equal_sum(left, negated, processes) || has_equal_sum(right, negated, processes)
        }
    }
}

/// Whether rules decide Possibly at any width.
#[derive(Clone, Copy, PartialEq, Eq)]
pub(crate) enum PossiblyForm {
    /// They do, whatever the run.
    Decided,
    /// The predicate has too many terms.
    ManyTerms,
    /// A term has several sums, so it is decided of few runs.
    SeveralSums,
    /// An `==` of a sum is decided of some runs.
    EqualSum,
    /// A term has several sums, and there is such an `==`.
    Both,
}

/// Whether rules decide Possibly of a predicate at any width, in a session of this many processes.
pub(crate) fn possibly_form(tree: &Tree, processes: usize) -> PossiblyForm {
    if parts_decide(tree, false, processes) {
        return PossiblyForm::Decided;
    }
    if count(tree, false) > TERM_LIMIT {
        return PossiblyForm::ManyTerms;
    }
    let has_several = most_sums(tree, false, processes).unwrap_or(0) > 1;
    match (has_several, has_equal_sum(tree, false, processes)) {
        (true, true) => PossiblyForm::Both,
        (true, false) => PossiblyForm::SeveralSums,
        (false, true) => PossiblyForm::EqualSum,
        (false, false) => PossiblyForm::Decided,
    }
}

/// Whether rules decide Definitely of a predicate at any width, whatever the run.
pub(crate) fn decides_definitely(tree: &Tree, processes: usize) -> bool {
    if has_few_terms(tree, false, processes) && (count(tree, false) == 1 || is_or(tree, false)) {
        return true;
    }
    is_of_two(tree, processes)
}
