//! A compiled predicate.
ghost use Rattle.walk_keys.specs.Words.{has_bit};
ghost use Rattle.def_model.specs.Cuts.{FitsProcesses};
ghost use Rattle.def_model.specs.Predicates.{test_of};
ghost use Rattle.pd_pred.specs.Trees.{tree_view};
ghost use Rattle.walk_tables.specs.Clauses.{clauses_hold};
ghost use Rattle.walk_tables.specs.Nodes.{node_holds};
ghost use Rattle.walk_tables.specs.Series.{series_holds};
ghost use Rattle.walk_tables.specs.Tables.{linear_holds};
ghost use Rattle.walk_tables.specs.Zero.{turned};
ghost use Rattle.def_model.specs.Predicates.{Recorded};
ghost use Rattle.walk_keys.specs.Neighbors.{cut_at};
ghost use Rattle.std.specs.Prelude.{◌≡◌, ℕ, ◌+◌, ◌-◌, ◌<◌, ◌≤◌, false, true};

use super::bits::{all_or_none, put};
use super::clauses::Clauses;
use super::linear::Linear;
use super::run_state::RunState;
use super::series::Series;
use pd_clock::Computation;
use pd_pred::Tree;

/// A compiled predicate. What has no tables is evaluated as its text spells it.
#[derive(Drop)]
pub(crate) enum Node<'a> {
    /// The same at each cut.
    Constant(bool),
    /// A comparison by tables.
    Compare(Linear),
    /// A chain of comparisons by tables.
    Several(Series),
    /// Clauses that are all true.
    Conjunction(Clauses),
    /// A part that is evaluated as its text spells it, or its opposite.
    Direct { tree: &'a Tree, negated: bool },
    /// Both.
    And(Box<Node<'a>>, Box<Node<'a>>),
    /// One or both.
    Or(Box<Node<'a>>, Box<Node<'a>>),
}

/// Of which of `n` neighboring cuts the predicate holds: bit `j` is that of the cut with `x + j` and `y - j`.
pub(crate) fn mask(
    node: &Node<'_>,
    computation: &Computation<'_>,
    prefix: &[u64],
    x: u64,
    y: u64,
    n: u64,
) -> u64
    requires some { 1 ≤ n }
    requires few { n ≤ 64 }
    requires down { n ≤ y + 1 }
    requires fits { (j : ℕ) → j < n → FitsProcesses computation.now.events (cut_at prefix.now (x + j) (y - j)) }
    ensures within { (j : ℕ) → j < n → has_bit result j
        ≡ node_holds computation.now node.now prefix.now (x + j) (y - j) }
    ensures beyond { (j : ℕ) → n ≤ j → has_bit result j ≡ false }
{
    match node {
        Node::Constant(truth) => all_or_none(*truth, n),
        Node::Compare(linear) => linear_mask(linear, computation, prefix, x, y, n),
        Node::Several(series) => series_mask(series, computation, prefix, x, y, n),
        Node::Conjunction(clauses) => conjunction_mask(clauses, computation, prefix, x, y, n),
        Node::Direct { tree, negated } => direct_mask(tree, *negated, computation, prefix, x, y, n),
        Node::And(left, right) => {
            let first = mask(left, computation, prefix, x, y, n);
            walk_keys::bits::words(first);
            if first == 0 {
                return 0;
            }
            walk_keys::bits::both(first, mask(right, computation, prefix, x, y, n))
        }
        Node::Or(left, right) => {
            let first = mask(left, computation, prefix, x, y, n);
            if first == walk_keys::bits::lowest(n) {
                return first;
            }
            walk_keys::bits::either(first, mask(right, computation, prefix, x, y, n))
        }
    }
}

/// `mask` of a comparison by tables.
fn linear_mask(
    linear: &Linear,
    computation: &Computation<'_>,
    prefix: &[u64],
    x: u64,
    y: u64,
    n: u64,
) -> u64
    requires some { 1 ≤ n }
    requires few { n ≤ 64 }
    requires down { n ≤ y + 1 }
    requires fits { (j : ℕ) → j < n → FitsProcesses computation.now.events (cut_at prefix.now (x + j) (y - j)) }
    ensures within { (j : ℕ) → j < n → has_bit result j ≡ linear_holds linear.now prefix.now (x + j) (y - j) }
    ensures beyond { (j : ℕ) → n ≤ j → has_bit result j ≡ false }
{
    computation.limits();
    linear.mask(prefix, x, y, n)
}

/// `mask` of a chain of comparisons by tables.
fn series_mask(
    series: &Series,
    computation: &Computation<'_>,
    prefix: &[u64],
    x: u64,
    y: u64,
    n: u64,
) -> u64
    requires some { 1 ≤ n }
    requires few { n ≤ 64 }
    requires down { n ≤ y + 1 }
    requires fits { (j : ℕ) → j < n → FitsProcesses computation.now.events (cut_at prefix.now (x + j) (y - j)) }
    ensures within { (j : ℕ) → j < n → has_bit result j ≡ series_holds series.now prefix.now (x + j) (y - j) }
    ensures beyond { (j : ℕ) → n ≤ j → has_bit result j ≡ false }
{
    computation.limits();
    series.mask(prefix, x, y, n)
}

/// `mask` of clauses.
fn conjunction_mask(
    clauses: &Clauses,
    computation: &Computation<'_>,
    prefix: &[u64],
    x: u64,
    y: u64,
    n: u64,
) -> u64
    requires some { 1 ≤ n }
    requires few { n ≤ 64 }
    requires down { n ≤ y + 1 }
    requires fits { (j : ℕ) → j < n → FitsProcesses computation.now.events (cut_at prefix.now (x + j) (y - j)) }
    ensures within { (j : ℕ) → j < n → has_bit result j ≡ clauses_hold clauses.now prefix.now (x + j) (y - j) }
    ensures beyond { (j : ℕ) → n ≤ j → has_bit result j ≡ false }
{
    computation.limits();
    clauses.mask(prefix, x, y, n)
}

/// `mask` of a part that is evaluated as its text spells it, or of its opposite.
fn direct_mask(
    tree: &Tree,
    negated: bool,
    computation: &Computation<'_>,
    prefix: &[u64],
    x: u64,
    y: u64,
    n: u64,
) -> u64
    requires some { 1 ≤ n }
    requires few { n ≤ 64 }
    requires down { n ≤ y + 1 }
    requires fits { (j : ℕ) → j < n → FitsProcesses computation.now.events (cut_at prefix.now (x + j) (y - j)) }
    ensures within { (j : ℕ) → j < n → has_bit result j
        ≡ turned negated (test_of computation.now (tree_view tree.now) (cut_at prefix.now (x + j) (y - j))) }
    ensures beyond { (j : ℕ) → n ≤ j → has_bit result j ≡ false }
{
    computation.limits();
    let mut mask = walk_keys::bits::lowest(0);
    for j in 0..n {
        let state = RunState::new(computation, prefix, x + j, y - j);
        mask = put(mask, j, tree.holds(&state) != negated);
    }
    mask
}

/// Whether the predicate holds at the cut with this prefix and these counts of the last two processes.
pub(crate) fn holds(
    node: &Node<'_>,
    computation: &Computation<'_>,
    prefix: &[u64],
    x: u64,
    y: u64,
) -> bool
    requires { FitsProcesses computation.now.events (cut_at prefix.now x y) }
    ensures { result ≡ node_holds computation.now node.now prefix.now x y }
{
    match node {
        Node::Constant(truth) => *truth,
        Node::Compare(linear) => linear.holds_at(prefix, x, y),
        Node::Several(series) => series.holds_at(prefix, x, y),
        Node::Conjunction(clauses) => conjunction_holds(clauses, computation, prefix, x, y),
        Node::Direct { tree, negated } => tree.holds(&RunState::new(computation, prefix, x, y))
            != *negated,
        Node::And(left, right) => {
            holds(left, computation, prefix, x, y) && holds(right, computation, prefix, x, y)
        }
        Node::Or(left, right) => {
            holds(left, computation, prefix, x, y) || holds(right, computation, prefix, x, y)
        }
    }
}

/// `holds` of clauses.
fn conjunction_holds(
    clauses: &Clauses,
    computation: &Computation<'_>,
    prefix: &[u64],
    x: u64,
    y: u64,
) -> bool
    requires { FitsProcesses computation.now.events (cut_at prefix.now x y) }
    ensures { result ≡ clauses_hold clauses.now prefix.now x y }
{
    let mask = conjunction_mask(clauses, computation, prefix, x, y, 1);
    walk_keys::bits::has(mask, 0)
}

/// Whether the predicate may hold at some cut with this prefix.
pub(crate) fn may(node: &Node<'_>, prefix: &[u64]) -> bool
    ensures { result ≡ false → (r : Recorded) (x y : ℕ) → node_holds r node.now prefix.now x y ≡ false }
{
    match node {
        Node::Constant(truth) => *truth,
        Node::Compare(linear) => linear.may(prefix),
        Node::Several(series) => series.may(prefix),
        Node::Conjunction(clauses) => clauses.may(prefix),
        Node::Direct { .. } => true,
        Node::And(left, right) => may(left, prefix) && may(right, prefix),
        Node::Or(left, right) => may(left, prefix) || may(right, prefix),
    }
}

/// Whether it is sure that the predicate holds at each cut with this prefix.
pub(crate) fn must(node: &Node<'_>, prefix: &[u64]) -> bool
    ensures { result ≡ true → (r : Recorded) (x y : ℕ) → node_holds r node.now prefix.now x y ≡ true }
{
    match node {
        Node::Constant(truth) => *truth,
        Node::Compare(linear) => linear.must(prefix),
        Node::Several(series) => series.must(prefix),
        Node::Conjunction(clauses) => clauses.must(prefix),
        Node::Direct { .. } => false,
        Node::And(left, right) => must(left, prefix) && must(right, prefix),
        Node::Or(left, right) => must(left, prefix) || must(right, prefix),
    }
}
