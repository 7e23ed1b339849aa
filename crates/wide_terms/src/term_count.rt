//! How many terms a predicate has.
ghost use Rattle.pd_pred.specs.Trees.{tree_view};
ghost use Rattle.def_model.specs.Decided.{term_count};
ghost use Rattle.std.specs.Prelude.{◌≡◌, ◌+◌, ◌*◌, cond, min};

use pd_pred::Tree;

/// The sum or the product of two numbers, or the greatest `u64` if it is greater.
fn joined(is_or: bool, left: u64, right: u64) -> u64
    ensures { result ≡ min (cond is_or (left + right) (left * right)) 18446744073709551615 }
{
    if is_or {
        left.saturating_add(right)
    } else {
        left.saturating_mul(right)
    }
}

/// How many terms a predicate has, or its opposite where `negated`; the greatest `u64` if they are more. It takes time
/// for the size of the tree.
pub fn count(tree: &Tree, negated: bool) -> u64
    ensures { result ≡ min (term_count negated (tree_view tree.now)) 18446744073709551615 }
{
    match tree {
        Tree::Always | Tree::Never | Tree::Compare { .. } => 1,
        Tree::Not(inner) => count(inner, !negated),
        Tree::And(left, right) => joined(negated, count(left, negated), count(right, negated)),
        Tree::Or(left, right) => joined(!negated, count(left, negated), count(right, negated)),
    }
}
