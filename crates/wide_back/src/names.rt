//! Which processes a predicate names.
ghost use Rattle.def_wide.specs.DeadEnds.{predicate_names, sum_names};
ghost use Rattle.pd_pred.specs.Trees.{sum_view, tree_view};
ghost use Rattle.pd_pred.specs.Views.{predicate_view};
ghost use Rattle.wide_back.specs.Names.{AreNames};
ghost use Rattle.std.specs.Prelude.{◌≡◌, IfOk};

use pd_pred::{Pred, Sum, Term, Tree};
use std::alloc::{AllocError, Global};

/// Whether some term of a sum names process `p`.
fn names_in(sum: &Sum, p: usize) -> bool
    ensures { result ≡ sum_names p (sum_view sum.now) }
{
    for signed in &sum.terms {
        match signed.term {
            Term::Number(_) => {}
            Term::Variable { process, .. } | Term::Times { process, .. } => {
                if process == p {
                    return true;
                }
            }
        }
    }
    false
}

/// Whether a predicate names process `p`.
fn is_named(tree: &Tree, p: usize) -> bool
    ensures { result ≡ predicate_names p (tree_view tree.now) }
{
    match tree {
        Tree::Always | Tree::Never => false,
        Tree::Compare { left, right, .. } => names_in(left, p) || names_in(right, p),
        Tree::Not(inner) => is_named(inner, p),
        Tree::And(left, right) | Tree::Or(left, right) => is_named(left, p) || is_named(right, p),
    }
}

/// For each of this many processes whether the predicate names it.
pub(crate) fn names(alloc: Global, pred: &Pred, processes: usize) -> Result<Vec<bool>, AllocError>
    ensures { IfOk result (λ names. AreNames (predicate_view pred.now) processes names.items) }
{
    let mut names = Vec::new(alloc);
    for p in 0..processes {
        names.push(is_named(pred.tree(), p))?;
    }
    Ok(names)
}
