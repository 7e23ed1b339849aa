//! Two compiled predicates joined by an `and` or an `or`.
ghost use Rattle.def_model.specs.Predicates.{Recorded};
ghost use Rattle.walk_tables.specs.Clauses.{clauses_hold};
ghost use Rattle.walk_tables.specs.Nodes.{head_holds, node_holds};
ghost use Rattle.walk_tables.specs.Tables.{linear_holds};
ghost use Rattle.walk_tables.specs.Zero.{joined};
ghost use Rattle.std.specs.Prelude.{◌≡◌, ℕ, IfOk, IfSome, List};

use super::clauses::Clauses;
use super::linear::Linear;
use super::node::Node;
use super::series::Series;
use std::alloc::{AllocError, Global};

/// What a chain of parts weighs, more than a comparison by tables.
const CHAIN_WEIGHT: usize = 100;

/// What a part weighs that is evaluated as its text spells it.
const DIRECT_WEIGHT: usize = 1_000;

/// What a predicate begins with: clauses that further ones may be joined with, or something else.
#[derive(Drop)]
pub(crate) enum Head<'a> {
    /// Clauses, and no more.
    Alone(Clauses),
    /// Clauses that are joined with the rest of a chain.
    Chain(Clauses, Node<'a>),
    /// A predicate that begins with something else.
    Other(Node<'a>),
}

/// The truth of a predicate that is the same at each cut.
fn constant(node: &Node<'_>) -> Option<bool>
    ensures { IfSome result (λ truth. (r : Recorded) (prefix : List ℕ) (x y : ℕ)
        → node_holds r node.now prefix x y ≡ truth) }
{
    match node {
        Node::Constant(truth) => Some(*truth),
        _ => None,
    }
}

/// Both predicates, or one of them, as a node over both.
fn pair<'a>(
    alloc: Global,
    is_and: bool,
    left: Node<'a>,
    right: Node<'a>,
) -> Result<Node<'a>, AllocError>
    ensures { IfOk result (λ node. (r : Recorded) (prefix : List ℕ) (x y : ℕ) → node_holds r node prefix x y
        ≡ joined is_and (node_holds r left.entry prefix x y) (node_holds r right.entry prefix x y)) }
{
    let left = Box::new(alloc, left)?;
    let right = Box::new(alloc, right)?;
    if is_and {
        Ok(Node::And(left, right))
    } else {
        Ok(Node::Or(left, right))
    }
}

/// A comparison by tables joined with a part of a chain. Comparisons that are joined in one way stand in one list.
fn with_part<'a>(
    alloc: Global,
    is_and: bool,
    first: Linear,
    part: Node<'a>,
) -> Result<Node<'a>, AllocError>
    ensures { IfOk result (λ node. (r : Recorded) (prefix : List ℕ) (x y : ℕ) → node_holds r node prefix x y
        ≡ joined is_and (linear_holds first prefix x y) (node_holds r part.entry prefix x y)) }
{
    match part {
        Node::Compare(second) => {
            let series = Series::one(alloc, is_and, second)?;
            let series = series.with(alloc, first)?;
            Ok(Node::Several(series))
        }
        Node::Several(series) => if series.is_and == is_and {
            let series = series.with(alloc, first)?;
            Ok(Node::Several(series))
        } else {
            pair(alloc, is_and, Node::Compare(first), Node::Several(series))
        },
        part => pair(alloc, is_and, Node::Compare(first), part),
    }
}

/// Whether further comparisons by tables can stand in one list with this part of a chain.
fn takes_linears(is_and: bool, part: &Node<'_>) -> bool {
    match part {
        Node::Compare(_) => true,
        Node::Several(series) => series.is_and == is_and,
        _ => false,
    }
}

/// A comparison by tables joined with a chain of two parts.
fn with_linear_in<'a>(
    alloc: Global,
    is_and: bool,
    first: Linear,
    part: Node<'a>,
    rest: Node<'a>,
) -> Result<Node<'a>, AllocError>
    ensures { IfOk result (λ node. (r : Recorded) (prefix : List ℕ) (x y : ℕ) → node_holds r node prefix x y
        ≡ joined is_and (linear_holds first prefix x y)
        (joined is_and (node_holds r part.entry prefix x y) (node_holds r rest.entry prefix x y))) }
{
    if takes_linears(is_and, &part) {
        let part = with_part(alloc, is_and, first, part)?;
        pair(alloc, is_and, part, rest)
    } else {
        let chain = pair(alloc, is_and, part, rest)?;
        pair(alloc, is_and, Node::Compare(first), chain)
    }
}

/// A comparison by tables joined with a predicate.
fn with_linear<'a>(
    alloc: Global,
    is_and: bool,
    first: Linear,
    right: Node<'a>,
) -> Result<Node<'a>, AllocError>
    ensures { IfOk result (λ node. (r : Recorded) (prefix : List ℕ) (x y : ℕ) → node_holds r node prefix x y
        ≡ joined is_and (linear_holds first prefix x y) (node_holds r right.entry prefix x y)) }
{
    match right {
        Node::And(part, rest) => if is_and {
            with_linear_in(
                alloc,
                true,
                first,
                Box::into_inner(part),
                Box::into_inner(rest),
            )
        } else {
            pair(alloc, false, Node::Compare(first), Node::And(part, rest))
        },
        Node::Or(part, rest) => if is_and {
            pair(alloc, true, Node::Compare(first), Node::Or(part, rest))
        } else {
            with_linear_in(
                alloc,
                false,
                first,
                Box::into_inner(part),
                Box::into_inner(rest),
            )
        },
        right => with_part(alloc, is_and, first, right),
    }
}

/// A part joined with a chain of two parts: comparisons by tables stay the first part.
fn behind_linears<'a>(
    alloc: Global,
    is_and: bool,
    left: Node<'a>,
    part: Node<'a>,
    rest: Node<'a>,
) -> Result<Node<'a>, AllocError>
    ensures { IfOk result (λ node. (r : Recorded) (prefix : List ℕ) (x y : ℕ) → node_holds r node prefix x y
        ≡ joined is_and (node_holds r left.entry prefix x y)
        (joined is_and (node_holds r part.entry prefix x y) (node_holds r rest.entry prefix x y))) }
{
    if takes_linears(is_and, &part) {
        let rest = pair(alloc, is_and, left, rest)?;
        pair(alloc, is_and, part, rest)
    } else {
        let chain = pair(alloc, is_and, part, rest)?;
        pair(alloc, is_and, left, chain)
    }
}

/// A part that is no comparison by tables joined with a predicate, whose comparisons by tables come first.
fn after_linears<'a>(
    alloc: Global,
    is_and: bool,
    left: Node<'a>,
    right: Node<'a>,
) -> Result<Node<'a>, AllocError>
    ensures { IfOk result (λ node. (r : Recorded) (prefix : List ℕ) (x y : ℕ) → node_holds r node prefix x y
        ≡ joined is_and (node_holds r left.entry prefix x y) (node_holds r right.entry prefix x y)) }
{
    match right {
        Node::And(part, rest) => if is_and {
            behind_linears(
                alloc,
                true,
                left,
                Box::into_inner(part),
                Box::into_inner(rest),
            )
        } else {
            pair(alloc, false, left, Node::And(part, rest))
        },
        Node::Or(part, rest) => if is_and {
            pair(alloc, true, left, Node::Or(part, rest))
        } else {
            behind_linears(
                alloc,
                false,
                left,
                Box::into_inner(part),
                Box::into_inner(rest),
            )
        },
        right => pair(alloc, is_and, left, right),
    }
}

/// How many bytes of tables are no longer needed once both are joined: those of a comparison of a sum that the other
/// predicate has. It is a measure, and nothing is promised of it.
pub(crate) fn spare_bytes(is_and: bool, left: &Node<'_>, right: &Node<'_>) -> usize {
    match left {
        Node::Compare(linear) => if has_sum_of(is_and, linear, right) {
            linear.bytes()
        } else {
            0
        },
        _ => 0,
    }
}

/// Whether a part of a chain has a comparison of the sum that this one has, with which it is joined.
fn part_has_sum(is_and: bool, linear: &Linear, part: &Node<'_>) -> bool {
    match part {
        Node::Compare(other) => other.has_sum_of(linear),
        Node::Several(series) => series.is_and == is_and && series.has_sum_of(linear),
        _ => false,
    }
}

/// Whether the first part of a chain has a comparison of the sum that this one has.
fn first_has_sum(is_and: bool, linear: &Linear, node: &Node<'_>) -> bool {
    match node {
        Node::And(part, _) => is_and && part_has_sum(is_and, linear, part),
        Node::Or(part, _) => !is_and && part_has_sum(is_and, linear, part),
        node => part_has_sum(is_and, linear, node),
    }
}

/// Whether the predicate is clauses, and no more.
fn is_clauses(node: &Node<'_>) -> bool {
    match node {
        Node::Conjunction(_) => true,
        _ => false,
    }
}

/// `first_has_sum` of the chain of these parts, where clauses are passed over that stand first.
fn chain_has_sum(is_and: bool, linear: &Linear, part: &Node<'_>, rest: &Node<'_>) -> bool {
    if is_clauses(part) {
        first_has_sum(is_and, linear, rest)
    } else {
        part_has_sum(is_and, linear, part)
    }
}

/// Whether the comparison, joined with the predicate, is made together with one of its sum.
fn has_sum_of(is_and: bool, linear: &Linear, node: &Node<'_>) -> bool {
    match node {
        Node::And(part, rest) => is_and && chain_has_sum(is_and, linear, part, rest),
        Node::Or(part, rest) => !is_and && chain_has_sum(is_and, linear, part, rest),
        node => part_has_sum(is_and, linear, node),
    }
}

/// Both predicates, or one of them: comparisons by tables are asked first, and then the first one.
fn in_turn<'a>(
    alloc: Global,
    is_and: bool,
    left: Node<'a>,
    right: Node<'a>,
) -> Result<Node<'a>, AllocError>
    ensures { IfOk result (λ node. (r : Recorded) (prefix : List ℕ) (x y : ℕ) → node_holds r node prefix x y
        ≡ joined is_and (node_holds r left.entry prefix x y) (node_holds r right.entry prefix x y)) }
{
    match left {
        Node::Compare(linear) => with_linear(alloc, is_and, linear, right),
        left => after_linears(alloc, is_and, left, right),
    }
}

/// How much work the predicate is. What may stop early weighs more than one comparison.
fn weight(node: &Node<'_>) -> usize {
    match node {
        Node::Constant(_) => 0,
        Node::Conjunction(_) => 0,
        Node::Compare(linear) => linear.weight(),
        Node::Several(_) => CHAIN_WEIGHT,
        Node::And(_, _) | Node::Or(_, _) => CHAIN_WEIGHT,
        Node::Direct { .. } => DIRECT_WEIGHT,
    }
}

/// Both predicates, or one of them: the lighter one is asked first.
fn in_order<'a>(
    alloc: Global,
    is_and: bool,
    left: Node<'a>,
    right: Node<'a>,
) -> Result<Node<'a>, AllocError>
    ensures { IfOk result (λ node. (r : Recorded) (prefix : List ℕ) (x y : ℕ) → node_holds r node prefix x y
        ≡ joined is_and (node_holds r left.entry prefix x y) (node_holds r right.entry prefix x y)) }
{
    if weight(&right) < weight(&left) {
        in_turn(alloc, is_and, right, left)
    } else {
        in_turn(alloc, is_and, left, right)
    }
}

/// What a chain of two parts begins with.
fn chain_head<'a>(
    alloc: Global,
    is_and: bool,
    first: Node<'a>,
    rest: Node<'a>,
) -> Result<Head<'a>, AllocError>
    ensures { IfOk result (λ head. (r : Recorded) (prefix : List ℕ) (x y : ℕ) → head_holds r is_and head prefix x y
        ≡ joined is_and (node_holds r first.entry prefix x y) (node_holds r rest.entry prefix x y)) }
{
    match first {
        Node::Conjunction(clauses) => Ok(Head::Chain(clauses, rest)),
        first => Ok(Head::Other(pair(alloc, is_and, first, rest)?)),
    }
}

/// What a predicate begins with, as a chain of parts that are joined in this way.
fn head_of<'a>(alloc: Global, is_and: bool, node: Node<'a>) -> Result<Head<'a>, AllocError>
    ensures { IfOk result (λ head. (r : Recorded) (prefix : List ℕ) (x y : ℕ)
        → head_holds r is_and head prefix x y ≡ node_holds r node.entry prefix x y) }
{
    match node {
        Node::Conjunction(clauses) => Ok(Head::Alone(clauses)),
        Node::And(first, rest) => if is_and {
            chain_head(alloc, true, Box::into_inner(first), Box::into_inner(rest))
        } else {
            Ok(Head::Other(Node::And(first, rest)))
        },
        Node::Or(first, rest) => if is_and {
            Ok(Head::Other(Node::Or(first, rest)))
        } else {
            chain_head(alloc, false, Box::into_inner(first), Box::into_inner(rest))
        },
        node => Ok(Head::Other(node)),
    }
}

/// Both conjunctions, or one of them: one conjunction, if it has few enough clauses.
fn both_clauses<'a>(
    alloc: Global,
    is_and: bool,
    first: Clauses,
    second: Clauses,
) -> Result<Node<'a>, AllocError>
    ensures { IfOk result (λ node. (r : Recorded) (prefix : List ℕ) (x y : ℕ) → node_holds r node prefix x y
        ≡ joined is_and (clauses_hold first prefix x y) (clauses_hold second prefix x y)) }
{
    if first.can_join(is_and, &second) {
        let clauses = Clauses::join(alloc, is_and, first, second)?;
        Ok(Node::Conjunction(clauses))
    } else {
        pair(
            alloc,
            is_and,
            Node::Conjunction(first),
            Node::Conjunction(second),
        )
    }
}

/// Clauses joined with a chain that begins with clauses.
fn clauses_with_chain<'a>(
    alloc: Global,
    is_and: bool,
    first: Clauses,
    second: Clauses,
    rest: Node<'a>,
) -> Result<Node<'a>, AllocError>
    ensures { IfOk result (λ node. (r : Recorded) (prefix : List ℕ) (x y : ℕ) → node_holds r node prefix x y
        ≡ joined is_and (clauses_hold first prefix x y)
        (joined is_and (clauses_hold second prefix x y) (node_holds r rest.entry prefix x y))) }
{
    if first.can_join(is_and, &second) {
        let clauses = Clauses::join(alloc, is_and, first, second)?;
        pair(alloc, is_and, Node::Conjunction(clauses), rest)
    } else {
        let chain = pair(alloc, is_and, Node::Conjunction(second), rest)?;
        pair(alloc, is_and, Node::Conjunction(first), chain)
    }
}

/// Clauses joined with a predicate.
fn with_clauses<'a>(
    alloc: Global,
    is_and: bool,
    first: Clauses,
    right: Node<'a>,
) -> Result<Node<'a>, AllocError>
    ensures { IfOk result (λ node. (r : Recorded) (prefix : List ℕ) (x y : ℕ) → node_holds r node prefix x y
        ≡ joined is_and (clauses_hold first prefix x y) (node_holds r right.entry prefix x y)) }
{
    match head_of(alloc, is_and, right)? {
        Head::Alone(second) => both_clauses(alloc, is_and, first, second),
        Head::Chain(second, rest) => clauses_with_chain(alloc, is_and, first, second, rest),
        Head::Other(right) => pair(alloc, is_and, Node::Conjunction(first), right),
    }
}

/// A predicate joined with another one, whose clauses come first.
fn after_clauses<'a>(
    alloc: Global,
    is_and: bool,
    left: Node<'a>,
    right: Node<'a>,
) -> Result<Node<'a>, AllocError>
    ensures { IfOk result (λ node. (r : Recorded) (prefix : List ℕ) (x y : ℕ) → node_holds r node prefix x y
        ≡ joined is_and (node_holds r left.entry prefix x y) (node_holds r right.entry prefix x y)) }
{
    match head_of(alloc, is_and, right)? {
        Head::Alone(clauses) => pair(alloc, is_and, Node::Conjunction(clauses), left),
        Head::Chain(clauses, rest) => {
            let rest = in_order(alloc, is_and, left, rest)?;
            pair(alloc, is_and, Node::Conjunction(clauses), rest)
        }
        Head::Other(right) => in_order(alloc, is_and, left, right),
    }
}

/// Both predicates, or one of them, neither of which is the same at each cut. Clauses come first, as one conjunction
/// where they can.
fn chain<'a>(
    alloc: Global,
    is_and: bool,
    left: Node<'a>,
    right: Node<'a>,
) -> Result<Node<'a>, AllocError>
    ensures { IfOk result (λ node. (r : Recorded) (prefix : List ℕ) (x y : ℕ) → node_holds r node prefix x y
        ≡ joined is_and (node_holds r left.entry prefix x y) (node_holds r right.entry prefix x y)) }
{
    match left {
        Node::Conjunction(clauses) => with_clauses(alloc, is_and, clauses, right),
        left => after_clauses(alloc, is_and, left, right),
    }
}

/// Both predicates, or one of them. One that is the same at each cut goes, clauses are asked first, and then the
/// lighter part.
pub(crate) fn join<'a>(
    alloc: Global,
    is_and: bool,
    left: Node<'a>,
    right: Node<'a>,
) -> Result<Node<'a>, AllocError>
    ensures { IfOk result (λ node. (r : Recorded) (prefix : List ℕ) (x y : ℕ) → node_holds r node prefix x y
        ≡ joined is_and (node_holds r left.entry prefix x y) (node_holds r right.entry prefix x y)) }
{
    match constant(&left) {
        Some(truth) => if truth == is_and {
            Ok(right)
        } else {
            Ok(Node::Constant(truth))
        },
        None => match constant(&right) {
            Some(truth) => if truth == is_and {
                Ok(left)
            } else {
                Ok(Node::Constant(truth))
            },
            None => chain(alloc, is_and, left, right),
        },
    }
}
