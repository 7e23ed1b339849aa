//! Whether a predicate names no process but those that are there.
ghost use Rattle.def_wide.specs.Sums.{NameBelow, NamesNoOther};
ghost use Rattle.pd_pred.specs.Trees.{sum_view, tree_view};
ghost use Rattle.std.specs.Prelude.{◌↔◌, IsTrue};

use pd_pred::{Sum, Term, Tree};

/// Whether a sum names no process but the first `processes`.
fn names_below(processes: usize, sum: &Sum) -> bool
    ensures { IsTrue result ↔ NameBelow processes (sum_view sum.now) }
{
    for signed in &sum.terms {
        match signed.term {
            Term::Number(_) => {}
            Term::Variable { process, .. } | Term::Times { process, .. } => {
                if process >= processes {
                    return false;
                }
            }
        }
    }
    true
}

/// Whether a predicate names no process but the first `processes`.
pub fn names_no_other(processes: usize, tree: &Tree) -> bool
    ensures { IsTrue result ↔ NamesNoOther processes (tree_view tree.now) }
{
    match tree {
        Tree::Always | Tree::Never => true,
        Tree::Compare { left, right, .. } => {
            names_below(processes, left) && names_below(processes, right)
        }
        Tree::Not(inner) => names_no_other(processes, inner),
        Tree::And(left, right) | Tree::Or(left, right) => {
            names_no_other(processes, left) && names_no_other(processes, right)
        }
    }
}
