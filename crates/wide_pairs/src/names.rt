//! Which processes a predicate names.
ghost use Rattle.def_model.specs.Decided.{NamePair, NamesOnly, NamesPair};
ghost use Rattle.wide_pairs.specs.Twos.{IsNamedPair, IsOther, IsPairOf};
ghost use Rattle.pd_pred.specs.Trees.{sum_view, term_view, tree_view};
ghost use Rattle.std.specs.Prelude.{◌≡◌, ◌≢◌, ◌<◌, ◌⊎◌, ℕ};

use super::pair::Pair;
use pd_clock::Computation;
use pd_pred::{Sum, Term, Tree};

/// A process that the term names beside `p` and `q`, if there is one.
fn other_of_term(term: Term, p: usize, q: usize) -> Option<usize>
    ensures { IsOther (λ x y. NamesPair x y (term_view term)) p q result }
{
    match term {
        Term::Number(_) => None,
        Term::Variable { process, .. } => other(process, p, q),
        Term::Times { process, .. } => other(process, p, q),
    }
}

/// The process, if it is another than `p` and `q`.
fn other(process: usize, p: usize, q: usize) -> Option<usize>
    ensures { IsOther (λ x y. (process ≡ x) ⊎ (process ≡ y)) p q result }
{
    if process != p && process != q {
        Some(process)
    } else {
        None
    }
}

/// A process that the sum names beside `p` and `q`, if there is one.
fn other_of_sum(sum: &Sum, p: usize, q: usize) -> Option<usize>
    ensures { IsOther (λ x y. NamePair x y (sum_view sum.now)) p q result }
{
    for signed in &sum.terms {
        match other_of_term(signed.term, p, q) {
            Some(process) => return Some(process),
            None => {}
        }
    }
    None
}

/// A process that the predicate names beside `p` and `q`, if there is one.
fn other_of(tree: &Tree, p: usize, q: usize) -> Option<usize>
    ensures { IsOther (λ x y. NamesOnly x y (tree_view tree.now)) p q result }
{
    match tree {
        Tree::Always | Tree::Never => None,
        Tree::Compare { left, right, .. } => match other_of_sum(left, p, q) {
            Some(process) => Some(process),
            None => other_of_sum(right, p, q),
        },
        Tree::Not(inner) => other_of(inner, p, q),
        Tree::And(left, right) => match other_of(left, p, q) {
            Some(process) => Some(process),
            None => other_of(right, p, q),
        },
        Tree::Or(left, right) => match other_of(left, p, q) {
            Some(process) => Some(process),
            None => other_of(right, p, q),
        },
    }
}

/// Two processes in ascending order.
fn ordered(p: usize, q: usize) -> Pair
    requires { p ≢ q }
    ensures order { result.first < result.second }
    ensures same { ((result.first ≡ p) × (result.second ≡ q)) ⊎ ((result.first ≡ q) × (result.second ≡ p)) }
{
    if p < q {
        Pair {
            first: p,
            second: q,
        }
    } else {
        Pair {
            first: q,
            second: p,
        }
    }
}

/// Two processes beside which the predicate names none, if there are such two.
fn named_pair(tree: &Tree) -> Option<Pair>
    ensures { IsNamedPair (tree_view tree.now) result }
{
    match other_of(tree, 0, 0) {
        None => Some(Pair {
            first: 0,
            second: 1,
        }),
        Some(p) => match other_of(tree, p, p) {
            None => Some(Pair {
                first: 0,
                second: p,
            }),
            Some(q) => match other_of(tree, p, q) {
                None => Some(ordered(p, q)),
                Some(_) => None,
            },
        },
    }
}

/// The two processes by which the predicate is of two, if it is.
pub(crate) fn pair_of(computation: &Computation<'_>, tree: &Tree) -> Option<Pair>
    ensures { IsPairOf computation.now.events (tree_view tree.now) result }
{
    match named_pair(tree) {
        None => None,
        Some(pair) => {
            if pair.second < computation.processes() {
                Some(pair)
            } else {
                None
            }
        }
    }
}
