//! What a predicate names.
ghost use Rattle.judge_facts.specs.Named.{names_process, names_variable, term_names, term_names_of, terms_name, terms_name_of};
ghost use Rattle.pd_pred.specs.Trees.{sum_view, term_view, tree_view};
ghost use Rattle.std.specs.List.{list_any};
ghost use Rattle.std.specs.Prelude.{◌≡◌};

use pd_pred::{SignedTerm, Sum, Term, Tree};

/// Whether a term names variable `var` of process `process`.
fn term_names(term: Term, process: usize, var: usize) -> bool
    ensures { result ≡ term_names process var (term_view term) }
{
    match term {
        Term::Number(_) => false,
        Term::Variable { process: p, var: v } => p == process && v == var,
        Term::Times {
            factor: _,
            process: p,
            var: v,
        } => p == process && v == var,
    }
}

/// Whether one of these terms names variable `var` of process `process`.
fn any_names(terms: &[SignedTerm], process: usize, var: usize) -> bool
    ensures { result ≡ list_any (λ signed. term_names process var (term_view signed.term)) terms.now }
{
    terms
        .iter()
        .any(|signed| term_names(signed.term, process, var))
}

/// Whether a term of a sum names variable `var` of process `process`.
fn sum_names(sum: &Sum, process: usize, var: usize) -> bool
    ensures { result ≡ terms_name process var (sum_view sum.now) }
{
    any_names(&sum.terms, process, var)
}

/// Whether a predicate names variable `var` of process `process`, both counted from 0.
pub fn names_variable(tree: &Tree, process: usize, var: usize) -> bool
    ensures { result ≡ names_variable process var (tree_view tree.now) }
{
    match tree {
        Tree::Always | Tree::Never => false,
        Tree::Compare { left, right, .. } => {
            sum_names(left, process, var) || sum_names(right, process, var)
        }
        Tree::Not(inner) => names_variable(inner, process, var),
        Tree::And(left, right) | Tree::Or(left, right) => {
            names_variable(left, process, var) || names_variable(right, process, var)
        }
    }
}

/// Whether a term names a variable of this process.
fn term_names_of(term: Term, process: usize) -> bool
    ensures { result ≡ term_names_of process (term_view term) }
{
    match term {
        Term::Number(_) => false,
        Term::Variable { process: p, var: _ } => p == process,
        Term::Times {
            factor: _,
            process: p,
            var: _,
        } => p == process,
    }
}

/// Whether one of these terms names a variable of this process.
fn any_names_of(terms: &[SignedTerm], process: usize) -> bool
    ensures { result ≡ list_any (λ signed. term_names_of process (term_view signed.term)) terms.now }
{
    terms
        .iter()
        .any(|signed| term_names_of(signed.term, process))
}

/// Whether a term of a sum names a variable of process `process`, which is counted from 0.
pub fn sum_names_process(sum: &Sum, process: usize) -> bool
    ensures { result ≡ terms_name_of process (sum_view sum.now) }
{
    any_names_of(&sum.terms, process)
}

/// Whether a predicate names a variable of process `process`, which is counted from 0.
pub fn names_process(tree: &Tree, process: usize) -> bool
    ensures { result ≡ names_process process (tree_view tree.now) }
{
    match tree {
        Tree::Always | Tree::Never => false,
        Tree::Compare { left, right, .. } => {
            sum_names_process(left, process) || sum_names_process(right, process)
        }
        Tree::Not(inner) => names_process(inner, process),
        Tree::And(left, right) | Tree::Or(left, right) => {
            names_process(left, process) || names_process(right, process)
        }
    }
}
