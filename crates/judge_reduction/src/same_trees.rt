//! Whether a predicate is another one under the numbers that some processes have.
ghost use Rattle.def_long.specs.Renamed.{renamed, renamed_sum, renamed_term};
ghost use Rattle.def_model.specs.Predicates as model;
ghost use Rattle.def_orders.specs.Selections.{numbers_in};
ghost use Rattle.pd_pred.specs.Trees.{comparison_view, sign_view, sum_view, term_view, terms_view, tree_view};
ghost use Rattle.std.specs.Prelude.{◌≡◌, slice_index_or, true};

use pd_pred::{Comparison, Sign, SignedTerm, Sum, Term, Tree};

/// Whether two signs are the same.
fn is_same_sign(first: Sign, second: Sign) -> bool
    ensures { result ≡ true → sign_view first ≡ sign_view second }
{
    match (first, second) {
        (Sign::Plus, Sign::Plus) => true,
        (Sign::Minus, Sign::Minus) => true,
        _ => false,
    }
}

/// The number that a process of those at these places has among all, of which there are `count`. It is `count` if it is
/// none of these.
fn number_in(places: &[usize], count: usize, process: usize) -> usize
    ensures { result ≡ slice_index_or places.now process count }
{
    match places.get(process) {
        Some(place) => *place,
        None => count,
    }
}

/// Whether the term is this number.
fn is_number(term: Term, number: u64) -> bool
    ensures { result ≡ true → model.Number number ≡ term_view term }
{
    match term {
        Term::Number(other) => other == number,
        _ => false,
    }
}

/// Whether the term is this variable.
fn is_variable(term: Term, process: usize, var: usize) -> bool
    ensures { result ≡ true → model.Variable process var ≡ term_view term }
{
    match term {
        Term::Variable { process: p, var: v } => p == process && v == var,
        _ => false,
    }
}

/// Whether the term is this number times this variable.
fn is_product(term: Term, factor: u32, process: usize, var: usize) -> bool
    ensures { result ≡ true → model.Times factor process var ≡ term_view term }
{
    match term {
        Term::Times {
            factor: k,
            process: p,
            var: v,
        } => k == factor && p == process && v == var,
        _ => false,
    }
}

/// Whether the first term is the second one, if its processes are those at these places of `count`.
fn is_same_term(places: &[usize], count: usize, first: Term, second: Term) -> bool
    ensures { result ≡ true
        → renamed_term (numbers_in places.now count) (term_view first) ≡ term_view second }
{
    match first {
        Term::Number(number) => is_number(second, number),
        Term::Variable { process, var } => {
            is_variable(second, number_in(places, count, process), var)
        }
        Term::Times {
            factor,
            process,
            var,
        } => is_product(second, factor, number_in(places, count, process), var),
    }
}

/// Whether the first term with its sign is the second one, if its processes are those at these places of `count`.
fn is_same_signed(places: &[usize], count: usize, first: SignedTerm, second: SignedTerm) -> bool
    ensures sign { result ≡ true → sign_view first.sign ≡ sign_view second.sign }
    ensures term { result ≡ true
        → renamed_term (numbers_in places.now count) (term_view first.term) ≡ term_view second.term }
{
    is_same_sign(first.sign, second.sign) && is_same_term(places, count, first.term, second.term)
}

/// Whether the first terms are the second ones, if their processes are those at these places of `count`.
fn are_same_terms(
    places: &[usize],
    count: usize,
    first: &[SignedTerm],
    second: &[SignedTerm],
) -> bool
    ensures { result ≡ true
        → renamed_sum (numbers_in places.now count) (terms_view first.now) ≡ terms_view second.now }
{
    if first.len() != second.len() {
        return false;
    }
    for i in 0..first.len() {
        if !is_same_signed(places, count, first[i], second[i]) {
            return false;
        }
    }
    true
}

/// Whether the first sum is the second one, if its processes are those at these places of `count`.
fn is_same_sum(places: &[usize], count: usize, first: &Sum, second: &Sum) -> bool
    ensures { result ≡ true
        → renamed_sum (numbers_in places.now count) (sum_view first.now) ≡ sum_view second.now }
{
    are_same_terms(places, count, &first.terms, &second.terms)
}

/// Whether two signs of comparison are the same.
fn is_same_comparison(first: Comparison, second: Comparison) -> bool
    ensures { result ≡ true → comparison_view first ≡ comparison_view second }
{
    match (first, second) {
        (Comparison::Equals, Comparison::Equals) => true,
        (Comparison::Differs, Comparison::Differs) => true,
        (Comparison::IsLess, Comparison::IsLess) => true,
        (Comparison::IsAtMost, Comparison::IsAtMost) => true,
        (Comparison::IsGreater, Comparison::IsGreater) => true,
        (Comparison::IsAtLeast, Comparison::IsAtLeast) => true,
        _ => false,
    }
}

/// Whether the predicate compares these sums so, if their processes are those at these places of `count`.
fn is_comparison(
    places: &[usize],
    count: usize,
    left: &Sum,
    comparison: Comparison,
    right: &Sum,
    tree: &Tree,
) -> bool
    ensures { result ≡ true → renamed (numbers_in places.now count)
        (model.Compare (sum_view left.now) (comparison_view comparison) (sum_view right.now)) ≡ tree_view tree.now }
{
    match tree {
        Tree::Compare {
            left: l,
            comparison: c,
            right: r,
        } => {
            is_same_comparison(comparison, *c)
                && is_same_sum(places, count, left, l)
                && is_same_sum(places, count, right, r)
        }
        _ => false,
    }
}

/// Whether the predicate is the one that is always true.
fn is_always(tree: &Tree) -> bool
    ensures { result ≡ true → model.Always ≡ tree_view tree.now }
{
    match tree {
        Tree::Always => true,
        _ => false,
    }
}

/// Whether the predicate is the one that is never true.
fn is_never(tree: &Tree) -> bool
    ensures { result ≡ true → model.Never ≡ tree_view tree.now }
{
    match tree {
        Tree::Never => true,
        _ => false,
    }
}

/// Whether the first predicate is the second one, if its processes are those at these places of `count`.
///
/// It takes time for one of them.
pub(crate) fn is_same_tree(places: &[usize], count: usize, first: &Tree, second: &Tree) -> bool
    ensures { result ≡ true
        → renamed (numbers_in places.now count) (tree_view first.now) ≡ tree_view second.now }
{
    match first {
        Tree::Always => is_always(second),
        Tree::Never => is_never(second),
        Tree::Compare {
            left,
            comparison,
            right,
        } => is_comparison(places, count, left, *comparison, right, second),
        Tree::Not(inner) => match second {
            Tree::Not(other) => is_same_tree(places, count, inner, other),
            _ => false,
        },
        Tree::And(left, right) => match second {
            Tree::And(l, r) => {
                is_same_tree(places, count, left, l) && is_same_tree(places, count, right, r)
            }
            _ => false,
        },
        Tree::Or(left, right) => match second {
            Tree::Or(l, r) => {
                is_same_tree(places, count, left, l) && is_same_tree(places, count, right, r)
            }
            _ => false,
        },
    }
}
