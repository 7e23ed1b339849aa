//! Whether each comparison speaks of one process at most.
ghost use Rattle.pd_pred.specs.Trees.{sum_view, tree_view};
ghost use Rattle.def_model.specs.Decided.{IsLocal, NameAlone, NameOne};
ghost use Rattle.wide_terms.specs.Locals.{first_named, first_of_both};
ghost use Rattle.std.specs.Prelude.{◌≡◌, ◌↔◌, IsTrue};

use pd_pred::{Sum, Term, Tree};

/// The first process that a sum names, counted from 0.
fn first_named(sum: &Sum) -> Option<usize>
    ensures { result ≡ first_named (sum_view sum.now) }
{
    for signed in &sum.terms {
        match signed.term {
            Term::Number(_) => {}
            Term::Variable { process, .. } | Term::Times { process, .. } => return Some(process),
        }
    }
    None
}

/// The first process that two sums name, counted from 0.
pub(crate) fn first_of_both(left: &Sum, right: &Sum) -> Option<usize>
    ensures { result ≡ first_of_both (sum_view left.now) (sum_view right.now) }
{
    match first_named(left) {
        Some(process) => Some(process),
        None => first_named(right),
    }
}

/// Whether a sum names no process but this one.
fn names_no_other(sum: &Sum, process: usize) -> bool
    ensures { IsTrue result ↔ NameAlone process (sum_view sum.now) }
{
    for signed in &sum.terms {
        match signed.term {
            Term::Number(_) => {}
            Term::Variable { process: other, .. } | Term::Times { process: other, .. } => {
                if other != process {
                    return false;
                }
            }
        }
    }
    true
}

/// Whether two sums name one process at most. It looks at each of their terms twice at most.
pub fn name_one(left: &Sum, right: &Sum) -> bool
    ensures { IsTrue result ↔ NameOne (sum_view left.now) (sum_view right.now) }
{
    match first_named(left) {
        Some(process) => names_no_other(left, process) && names_no_other(right, process),
        None => match first_named(right) {
            Some(process) => names_no_other(right, process),
            None => true,
        },
    }
}

/// Whether each comparison of a predicate names one process at most.
pub(crate) fn is_local(tree: &Tree) -> bool
    ensures { IsTrue result ↔ IsLocal (tree_view tree.now) }
{
    match tree {
        Tree::Always | Tree::Never => true,
        Tree::Compare { left, right, .. } => name_one(left, right),
        Tree::Not(inner) => is_local(inner),
        Tree::And(left, right) | Tree::Or(left, right) => is_local(left) && is_local(right),
    }
}
