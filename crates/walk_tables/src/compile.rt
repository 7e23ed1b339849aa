//! A predicate's tree as a compiled predicate.
ghost use Rattle.pd_pred.specs.Trees.{tree_view};
ghost use Rattle.walk_tables.specs.Nodes.{IsCompiled, IsJoined, IsSplit, node_holds};
ghost use Rattle.walk_tables.specs.Tables.{linear_holds};
ghost use Rattle.def_model.specs.Predicates.{Recorded};
ghost use Rattle.std.specs.Prelude.{◌≡◌, ℕ, ◌≤◌, IfOk, List, length};

use super::build::linear_of;
use super::clause::clause_of;
use super::join::{join, spare_bytes};
use super::linear::Linear;
use super::node::Node;
use super::zero::turned_comparison;
use pd_clock::Computation;
use pd_pred::Tree;
use std::alloc::{AllocError, Global};

/// What a predicate is joined with.
#[derive(Drop)]
pub(crate) struct Rest<'a> {
    pub(crate) is_and: bool,
    pub(crate) node: Node<'a>,
}

/// A comparison by tables as a predicate.
fn compared<'a>(alloc: Global, linear: Linear) -> Result<Node<'a>, AllocError>
    ensures { IfOk result (λ node. (r : Recorded) (prefix : List ℕ) (x y : ℕ) → node_holds r node prefix x y
        ≡ linear_holds linear prefix x y) }
{
    match linear.decided() {
        Some(truth) => Ok(Node::Constant(truth)),
        None => match clause_of(alloc, &linear)? {
            Some(clauses) => Ok(Node::Conjunction(clauses)),
            None => Ok(Node::Compare(linear)),
        },
    }
}

/// A tree, or its opposite where `negated`, with no look into what it joins.
fn leaf<'a>(
    alloc: Global,
    computation: &Computation<'_>,
    tree: &'a Tree,
    negated: bool,
    room: &mut usize,
) -> Result<Node<'a>, AllocError>
    requires { 2 ≤ length computation.now.events }
    ensures { IfOk result (λ node. IsCompiled computation.now negated (tree_view tree.now) node) }
{
    match tree {
        Tree::Always => Ok(Node::Constant(!negated)),
        Tree::Never => Ok(Node::Constant(negated)),
        Tree::Compare {
            left,
            comparison,
            right,
        } => {
            let comparison = turned_comparison(*comparison, negated);
            match linear_of(
                alloc,
                computation,
                &left.terms,
                comparison,
                &right.terms,
                room,
            )? {
                Some(linear) => Ok(compared(alloc, linear)?),
                None => Ok(Node::Direct { tree, negated }),
            }
        }
        _ => Ok(Node::Direct { tree, negated }),
    }
}

/// What a chain of parts that are joined in this way ends in, and what the chain is joined with: the rest is the end of
/// a chain that goes on in the same way.
fn split<'a>(rest: Rest<'a>, is_and: bool) -> (Node<'a>, Rest<'a>)
    ensures { IsSplit rest.entry is_and result.0 result.1 }
{
    if rest.is_and == is_and {
        let none = Rest {
            is_and,
            node: Node::Constant(is_and),
        };
        (rest.node, none)
    } else {
        (Node::Constant(is_and), rest)
    }
}

/// The tree, or its opposite where `negated`, joined with the rest. What joins parts in one way stands in one chain to
/// the right, so that its first part is asked first.
pub(crate) fn compile<'a>(
    alloc: Global,
    computation: &Computation<'_>,
    tree: &'a Tree,
    negated: bool,
    rest: Rest<'a>,
    room: &mut usize,
) -> Result<Node<'a>, AllocError>
    requires { 2 ≤ length computation.now.events }
    ensures { IfOk result (λ node. IsJoined computation.now negated (tree_view tree.now) rest.entry node) }
{
    match tree {
        Tree::Not(inner) => compile(alloc, computation, inner, !negated, rest, room),
        Tree::And(left, right) => {
            let is_and = !negated;
            let (node, rest) = split(rest, is_and);
            let chain = Rest { is_and, node };
            let node = compile(alloc, computation, right, negated, chain, room)?;
            let chain = Rest { is_and, node };
            let node = compile(alloc, computation, left, negated, chain, room)?;
            join(alloc, rest.is_and, node, rest.node)
        }
        Tree::Or(left, right) => {
            let is_and = negated;
            let (node, rest) = split(rest, is_and);
            let chain = Rest { is_and, node };
            let node = compile(alloc, computation, right, negated, chain, room)?;
            let chain = Rest { is_and, node };
            let node = compile(alloc, computation, left, negated, chain, room)?;
            join(alloc, rest.is_and, node, rest.node)
        }
        _ => {
            let node = leaf(alloc, computation, tree, negated, room)?;
            *room = room.saturating_add(spare_bytes(rest.is_and, &node, &rest.node));
            join(alloc, rest.is_and, node, rest.node)
        }
    }
}
