//! How many comparisons a compiled predicate has.
use super::node::Node;
use pd_pred::Tree;

/// How many comparisons a predicate has, at most the greatest `u64`.
fn comparisons_in(tree: &Tree) -> u64 {
    match tree {
        Tree::Not(inner) => comparisons_in(inner),
        Tree::And(left, right) | Tree::Or(left, right) => comparisons_in(left).saturating_add(
            comparisons_in(right),
        ),
        _ => 1,
    }
}

/// How many comparisons a compiled predicate has, at most the greatest `u64`. Clauses that are asked together are one.
pub(crate) fn comparisons(node: &Node<'_>) -> u64 {
    match node {
        Node::Constant(_) => 0,
        Node::Compare(_) | Node::Conjunction(_) => 1,
        Node::Several(series) => series.comparisons(),
        Node::Direct { tree, negated: _ } => comparisons_in(tree),
        Node::And(left, right) | Node::Or(left, right) => comparisons(left).saturating_add(
            comparisons(right),
        ),
    }
}
